// Words, floats and vectors out of bytes.
ghost use Rattle.std.specs.Prelude.{◌≡◌, ◌+◌, ◌*◌, ◌<◌, ◌≤◌, length};
ghost use Rattle.relay_math.specs.F32.{finite_or};
ghost use Rattle.words.specs.Words.{four_bytes, word, float, float_of, vec};
ghost use Rattle.words.specs.Inner.{is_plain, all_plain};

use super::view::Words;
use relay_math::Vec3;

// A word from any byte on. It compiles to one load.
pub fn four_bytes(bytes: &[u8], at: usize) -> u32
    requires { at + 4 ≤ length bytes.now }
    ensures { result ≡ four_bytes bytes.now at }
{
    u32::from_le_bytes([bytes[at], bytes[at + 1], bytes[at + 2], bytes[at + 3]])
}

#[tactic(auto, unfolding(crate::specs::Words::word))]
pub fn word_at(bytes: &[u8], k: usize) -> u32
    requires { 4 * k + 4 ≤ length bytes.now }
    ensures { result ≡ word bytes.now k }
{
    four_bytes(bytes, 4 * k)
}

// Above the infinity's pattern, the sign dropped, every pattern is a NaN's.
#[tactic(auto, using(crate::proofs::Plain::plain_is))]
fn is_plain(w: u32) -> bool
    ensures { result ≡ is_plain w }
{
    w % 0x8000_0000 <= 0x7f80_0000
}

// Whether no word is a NaN's pattern: a tick that knows it tests no word again (docs/SPEED.md says what that saves).
// 0x7f_ffff more brings just those patterns to the top bit, and `|` keeps it: four words take four instructions, fewer than a test of each.
pub fn all_plain(bytes: &[u8], count: usize) -> bool
    requires { 4 * count ≤ length bytes.now }
    ensures { result ≡ all_plain bytes.now count }
{
    let mut above: u32 = 0;
    for k in 0..count {
        above |= word_at(bytes, k) % 0x8000_0000 + 0x7f_ffff;
    }
    above < 0x8000_0000
}

// Every NaN pattern is read as the one NaN: `from_bits` is undefined there, so the pattern is tested first.
pub fn float_of(w: u32) -> f32
    ensures { result ≡ float_of w }
{
    if is_plain(w) {
        f32::from_bits(w)
    } else {
        0.0 / 0.0
    }
}

// The float there, or another where it is not finite, by one test of its word (docs/SPEED.md says what that saves). Tested first for a NaN's
// pattern and then as a number, each word would have two. Doubled, the test takes two instructions less on x86-64.
pub fn finite_at(bytes: &[u8], k: usize, otherwise: f32) -> f32
    requires { 4 * k + 4 ≤ length bytes.now }
    ensures { result ≡ finite_or (float bytes.now k) otherwise }
{
    let w = word_at(bytes, k);
    if w % 0x8000_0000 * 2 < 0xff00_0000 {
        f32::from_bits(w)
    } else {
        otherwise
    }
}

pub fn float_at(bytes: &[u8], k: usize) -> f32
    requires { 4 * k + 4 ≤ length bytes.now }
    ensures { result ≡ float bytes.now k }
{
    Words::new(bytes).float(k)
}

pub fn vec_at(bytes: &[u8], k: usize) -> Vec3
    requires { 4 * k + 12 ≤ length bytes.now }
    ensures { result ≡ vec bytes.now k }
{
    Words::new(bytes).vec(k)
}
