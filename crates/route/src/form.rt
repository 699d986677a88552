// How a route stands in bytes: legs of 19 words each, then a trailer of two words, the count and how many bytes back the first leg starts.
ghost use Rattle.std.specs.Prelude.{◌≡◌, true, ◌+◌, ◌-◌, ◌*◌, ◌≤◌, length};
ghost use Rattle.std.specs.Float.Ieee.{eq};
ghost use Rattle.words.specs.Words.{float_of, vec};
ghost use Rattle.image.specs.Layout.{leg_bytes};
ghost use Rattle.image.specs.Parts.{leg_at};
ghost use Rattle.route.specs.Form.{route_trailer_bytes, leg_count, back_of, vecs_meet, legs_meet, all_meet, form_refusal};

use image::{LEG_BYTES, LEG_WORDS};
use outcome::{Outcome, Refusal};
use words::{float_of, four_bytes, word_at};

// The limit: everything but the check is over any count.
pub const MOST_LEGS: usize = 32;

pub const TRAILER_BYTES: usize = 8;

// The trailer is the last 8 bytes, whatever the length.
#[tactic(auto, unfolding(crate::specs::Form::leg_count))]
pub(crate) fn leg_count(route: &[u8]) -> usize
    requires { route_trailer_bytes ≤ length route.now }
    ensures { result ≡ leg_count route.now }
{
    four_bytes(route, route.len() - TRAILER_BYTES) as usize
}

#[tactic(auto, unfolding(crate::specs::Form::back_of))]
fn bytes_back(route: &[u8]) -> usize
    requires { route_trailer_bytes ≤ length route.now }
    ensures { result ≡ back_of route.now }
{
    four_bytes(route, route.len() - 4) as usize
}

// As numbers: -0.0 meets 0.0, and a NaN meets nothing. Mostly the words are the same, and then no float is made of them: a tick compares all joins.
#[tactic(auto, using(crate::proofs::LegWalks::itself))]
fn words_meet(w: u32, x: u32) -> bool
    ensures { result ≡ eq (float_of w) (float_of x) }
{
    if w == x {
        return w % 0x8000_0000 <= 0x7f80_0000;
    }
    float_of(w) == float_of(x)
}

// The vectors whose first words are these.
#[tactic(auto, unfolding(crate::specs::Form::vecs_meet, words::specs::Words::vec, words::specs::Words::float))]
fn vecs_meet(a: &[u8], j: usize, b: &[u8], k: usize) -> bool
    requires { (4 * j + 12 ≤ length a.now) × (4 * k + 12 ≤ length b.now) }
    ensures { result ≡ vecs_meet (vec a.now j) (vec b.now k) }
{
    words_meet(word_at(a, j), word_at(b, k))
        && words_meet(word_at(a, j + 1), word_at(b, k + 1))
        && words_meet(word_at(a, j + 2), word_at(b, k + 2))
}

// The legs whose first words are these. They may stand in different bytes: a pattern's are not a route's.
#[tactic(auto, unfolding(crate::specs::Form::legs_meet, image::specs::Parts::leg_at))]
pub fn legs_meet(earlier: &[u8], j: usize, later: &[u8], k: usize) -> bool
    requires { (4 * j + leg_bytes ≤ length earlier.now) × (4 * k + leg_bytes ≤ length later.now) }
    ensures { result ≡ legs_meet (leg_at earlier.now j) (leg_at later.now k) }
{
    vecs_meet(later, k, earlier, j + 9)
        && vecs_meet(later, k + 3, earlier, j + 12)
        && vecs_meet(later, k + 6, earlier, j + 15)
}

// 0 only of words that meet since they are the same, and no NaN's: 0x7f_ffff more brings just a NaN's pattern to the top bit. Nothing is tested.
#[tactic(auto, using(crate::proofs::LegWalks::none_apart))]
fn words_apart(w: u32, x: u32) -> u32
    ensures { result ≡ 0 → eq (float_of w) (float_of x) ≡ true }
{
    (w ^ x) | ((w % 0x8000_0000 + 0x7f_ffff) / 0x8000_0000)
}

fn vecs_apart(a: &[u8], j: usize, b: &[u8], k: usize) -> u32
    requires { (4 * j + 12 ≤ length a.now) × (4 * k + 12 ≤ length b.now) }
    ensures { result ≡ 0 → vecs_meet (vec a.now j) (vec b.now k) ≡ true }
{
    words_apart(word_at(a, j), word_at(b, k))
        | words_apart(word_at(a, j + 1), word_at(b, k + 1))
        | words_apart(word_at(a, j + 2), word_at(b, k + 2))
}

#[tactic(auto, using(crate::proofs::LegWalks::all_three), unfolding(crate::specs::Form::legs_meet, image::specs::Parts::leg_at))]
fn legs_apart(earlier: &[u8], j: usize, later: &[u8], k: usize) -> u32
    requires { (4 * j + leg_bytes ≤ length earlier.now) × (4 * k + leg_bytes ≤ length later.now) }
    ensures { result ≡ 0 → legs_meet (leg_at earlier.now j) (leg_at later.now k) ≡ true }
{
    vecs_apart(later, k, earlier, j + 9)
        | vecs_apart(later, k + 3, earlier, j + 12)
        | vecs_apart(later, k + 6, earlier, j + 15)
}

// Whether each of the legs but the first starts with the very words that the one before it ends with, and none of them a NaN's: then all meet. One test a
// join, where the walk below has nine (docs/SPEED.md says what that saves). With -0.0 at a join it says no, and the walk decides.
fn all_alike(route: &[u8], count: usize) -> bool
    requires { leg_bytes * count ≤ length route.now }
    ensures { result ≡ true → all_meet route.now count ≡ true }
{
    for i in 1..count {
        if legs_apart(route, LEG_WORDS * (i - 1), route, LEG_WORDS * i) != 0 {
            return false;
        }
    }
    true
}

// Whether each of the legs but the first meets the one before it.
fn all_meet(route: &[u8], count: usize) -> bool
    requires { leg_bytes * count ≤ length route.now }
    ensures { result ≡ all_meet route.now count }
{
    if all_alike(route, count) {
        return true;
    }
    for i in 1..count {
        if !legs_meet(route, LEG_WORDS * (i - 1), route, LEG_WORDS * i) {
            return false;
        }
    }
    true
}

// What a route is refused for. The count is tested before it is multiplied: 76 times 2^30 is 0 in 32 bits.
#[tactic(auto, unfolding(crate::specs::Form::form_refusal))]
pub(crate) fn form_refusal(route: &[u8]) -> Outcome
    ensures { result ≡ form_refusal route.now }
{
    let length = route.len();
    if length < TRAILER_BYTES {
        return Err(Refusal::RouteLength);
    }
    let count = leg_count(route);
    if count == 0 || count > MOST_LEGS {
        return Err(Refusal::LegCount);
    }
    let legs = LEG_BYTES * count;
    if bytes_back(route) != legs || length != legs + TRAILER_BYTES {
        return Err(Refusal::RouteLength);
    }
    if !all_meet(route, count) {
        return Err(Refusal::LegsApart);
    }
    Ok(())
}
