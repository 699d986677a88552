// The legs that a walk found, by their places in the pattern's bytes: whether they meet, and the route of them.
ghost use Rattle.std.specs.Prelude.{◌≡◌, map, ◌∷◌, [], ◌+◌, ◌*◌, ◌≤◌, ◌<◌, length};
ghost use Rattle.std.proofs.lemmas.List.Edits.{sets};
ghost use Rattle.words.specs.Words.{Put};
ghost use Rattle.outcome.specs.Outcomes.{left};
ghost use Rattle.image.specs.Layout.{leg_bytes};
ghost use Rattle.route.specs.Form.{route_trailer_bytes, most_legs};
ghost use Rattle.pattern.specs.Walk.{leg_in, Places};
ghost use Rattle.pattern.specs.Entry.{flown_meet, joined, buffers, expanded_call};

use image::{LEG_BYTES, LEG_WORDS};
use outcome::{Outcome, Refusal};
use route::{TRAILER_BYTES, legs_meet};
use words::{put_bytes, put_word};

// A part of the pattern: the bytes of a leg.
fn leg_in(b: &[u8], place: usize) -> &[u8]
    requires { place + leg_bytes ≤ length b.now }
    ensures { result.now ≡ leg_in b.now place }
{
    let end = place + LEG_BYTES;
    &b[place..end]
}

// Whether each leg meets the one that is flown after it.
fn all_meet(b: &[u8], places: &[usize]) -> bool
    requires { Places b.now places.now }
    ensures { result ≡ flown_meet (map (leg_in b.now) places.now) }
{
    for pair in places.windows(2) {
        let earlier = leg_in(b, pair[0]);
        let later = leg_in(b, pair[1]);
        if !legs_meet(earlier, 0, later, 0) {
            return false;
        }
    }
    true
}

fn put_legs(b: &[u8], places: &[usize], route: &mut [u8])
    requires places { Places b.now places.now }
    requires room { leg_bytes * length places.now ≤ length route.old }
    ensures { route.new ≡ sets route.old 0 (joined (map (leg_in b.now) places.now)) }
{
    for (i, place) in places.iter().enumerate() {
        put_bytes(route, LEG_BYTES * i, leg_in(b, *place));
    }
}

// The count, and how many bytes back the first leg starts.
fn put_trailer(route: &mut [u8], count: usize)
    requires { (leg_bytes * count + route_trailer_bytes ≤ length route.old) × (count ≤ most_legs) }
    ensures { Put route.old (19 * count) (count ∷ leg_bytes * count ∷ []) route.new }
{
    let k = LEG_WORDS * count;
    put_word(route, k, count as u32);
    put_word(route, k + 1, (LEG_BYTES * count) as u32);
}

// The route of 1 to 32 legs, unless it has no room or they are apart.
pub(crate) fn put_route(b: &[u8], places: &[usize], route: &mut [u8], written: &mut [u8]) -> Outcome
    requires places { Places b.now places.now }
    requires count_bound { (length places.now ≤ most_legs) × (length written.old ≡ 4) }
    ensures { left result (buffers route.new written.new) ≡ expanded_call (map (leg_in b.now) places.now) route.old written.old }
{
    let count = places.len();
    let length = LEG_BYTES * count + TRAILER_BYTES;
    if route.len() < length {
        return Err(Refusal::NoRoom);
    }
    if !all_meet(b, places) {
        return Err(Refusal::LegsApart);
    }
    put_legs(b, places, route);
    put_trailer(route, count);
    put_word(written, 0, length as u32);
    Ok(())
}
