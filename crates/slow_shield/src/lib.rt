// The slow shield (request Nine of document 02), for those who explain flights: a list of margins in, a flag for each out. It keeps no latch. For each tick
// it looks back through the list, so that it is a second opinion on the shield that steps.
#![tactic(auto)]

ghost use Rattle.std.specs.Prelude.{◌≡◌, true, false, map, ◌+◌, ◌*◌, ◌≤◌, length};
ghost use Rattle.std.specs.Float.Ieee.{lt};
ghost use Rattle.relay_math.specs.F32.{is_finite};
ghost use Rattle.words.specs.Words.{flag};
ghost use Rattle.outcome.specs.Outcomes.{left};
ghost use Rattle.slow_shield.specs.Back.{in_band, look_back, slow_flags};
ghost use Rattle.slow_shield.specs.Entry.{margins_in, flags_call};
ghost use Rattle.slow_shield.specs.Inner.{Between};

use outcome::{Outcome, Refusal};
use relay_geo::mend;
use relay_math::{finite_above, is_finite};
use words::{bits_of, float_at, word_at};

pub const MOST_MARGINS: usize = 65535;

// How many margins are passed over at a time, where they can be. A loop over 32 the compiler writes out, with a branch for each; one over 64 has none in it.
const BLOCK: usize = 64;

// Thresholds as `mend` leaves them: the lower one is finite, and below the upper one.
#[derive(Clone, Copy)]
struct Band {
    enter: f32,
    exit: f32,
    ghost ordered: { (is_finite enter ≡ true) × (lt enter exit ≡ true) },
}

// Only false of a word between these. Both tests are made, so that there is no branch between them.
fn outside(w: u32, lo: u32, hi: u32) -> bool
    ensures { result ≡ false → (lo ≤ w) × (w ≤ hi) }
{
    (w < lo) | (w > hi)
}

// Whether all words of a block lie between these. With one test for all of them the compiler looks at four at a time, and has no branch in the loop.
fn block_between(margins: &[u8], from: usize, lo: u32, hi: u32) -> bool
    requires { 4 * (from + 64) ≤ length margins.now }
    ensures { result ≡ true → Between margins.now lo hi from (from + 64) }
{
    let mut out = false;
    for k in from..from + BLOCK {
        out = out | outside(word_at(margins, k), lo, hi);
    }
    !out
}

// From so many margins down over those whose words lie between these, by blocks.
fn blocks_passed_over(margins: &[u8], lo: u32, hi: u32, count: usize) -> usize
    requires { 4 * count ≤ length margins.now }
    ensures { (result ≤ count) × Between margins.now lo hi result count }
{
    for n in 0..count / BLOCK {
        let i = count - BLOCK * n;
        if !block_between(margins, i - BLOCK, lo, hi) {
            return i;
        }
    }
    count % BLOCK
}

impl Band {
    // The margin moves nothing. Two comparisons, which no NaN passes.
    fn holds(self, margin: f32) -> bool
        ensures { result ≡ in_band self.enter self.exit margin }
    {
        self.enter <= margin && margin <= self.exit
    }

    // From so many margins down over those whose words lie between the thresholds' words. Words are compared as whole numbers: of two floats without a sign the
    // larger has the larger word. With a threshold that has a sign it passes over none.
    fn passed_over(self, margins: &[u8], count: usize) -> usize
        requires count_in_bounds { 4 * count ≤ length margins.now }
        requires exit_value { is_finite self.exit ≡ true }
        ensures { (result ≤ count) × (look_back self.enter self.exit (margins_in margins.now) result ≡ look_back self.enter self.exit (margins_in margins.now) count) }
    {
        let lo = bits_of(self.enter);
        let hi = bits_of(self.exit);
        if hi >= 0x7f80_0000 {
            return count;
        }
        for i in (0..blocks_passed_over(margins, lo, hi, count)).rev() {
            if outside(word_at(margins, i), lo, hi) {
                return i + 1;
            }
        }
        0
    }

    // The last margin outside the band decides: with finite thresholds one that does not release engages.
    fn look_back(self, margins: &[u8], count: usize) -> bool
        requires count_in_bounds { 4 * count ≤ length margins.now }
        requires exit_value { is_finite self.exit ≡ true }
        ensures { result ≡ look_back self.enter self.exit (margins_in margins.now) count }
    {
        for i in (0..self.passed_over(margins, count)).rev() {
            let margin = float_at(margins, i);
            if !self.holds(margin) {
                return !finite_above(self.exit, margin);
            }
        }
        true
    }

    // Whether the fallback has control after so many margins. No margin is above an exit of +infinity, so there the walk would find no release.
    fn fallback_after(self, margins: &[u8], count: usize) -> bool
        requires count_in_bounds { 4 * count ≤ length margins.now }
        ensures { result ≡ look_back self.enter self.exit (margins_in margins.now) count }
    {
        !is_finite(self.exit) || self.look_back(margins, count)
    }
}

fn put_flags(margins: &[u8], band: Band, flags: &mut [u8])
    requires { length margins.now ≡ 4 * length flags.old }
    ensures { flags.new ≡ map flag (slow_flags band.enter band.exit (margins_in margins.now)) }
{
    for (i, flag) in flags.iter_mut().enumerate() {
        *flag = u8::from(band.fallback_after(margins, i + 1));
    }
}

// The flags of margins that are given as words, a byte each: 1 where the fallback has control, 0 where the planner has. Nothing is asked of the caller; a
// refused call writes no flag. The length of the flags is tested before it is multiplied.
pub fn flags_into(margins: &[u8], enter: f32, exit: f32, flags: &mut [u8]) -> Outcome
    ensures { left result flags.new ≡ flags_call margins.now enter exit flags.old }
{
    if flags.len() > MOST_MARGINS {
        return Err(Refusal::NoRoom);
    }
    if margins.len() != 4 * flags.len() {
        return Err(Refusal::NoRoom);
    }
    let t = mend(enter, exit);
    let band = Band {
        enter: t.enter,
        exit: t.exit,
    };
    put_flags(margins, band, flags);
    Ok(())
}
