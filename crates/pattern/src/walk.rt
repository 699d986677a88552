// The walk over a pattern's bytes, each of which is passed once. It loops over items and calls itself for what repeats hold, so its stack grows with the
// depth alone. It finds where the legs stand and writes nothing else: a pattern may be refused after its last leg was seen.
ghost use Rattle.std.specs.Prelude.{◌≡◌, ◌+◌, ◌≤◌, ◌<◌, length};
ghost use Rattle.std.proofs.Math.Seq.{slice};
ghost use Rattle.route.specs.Form.{most_legs};
ghost use Rattle.pattern.specs.Read.{head_of, size_of, read, item_within};
ghost use Rattle.pattern.specs.Walk.{capped, Walk, OneMore, Rounds};

use super::form::{Head, LEG_ITEM_BYTES, head_at};
use route::MOST_LEGS;

// How far the walk came, and how many legs it has found: 33 stands for more than 32.
#[derive(Clone, Copy)]
pub struct Past {
    pub next: usize,
    pub legs: usize,
}

fn at_most_33(n: usize) -> usize
    ensures { result ≡ capped n }
{
    if n > MOST_LEGS { 33 } else { n }
}

fn put_place(places: &mut [usize], count: usize, place: usize) -> usize
    requires { (length places.old ≡ most_legs) × (count ≤ 33) }
    ensures { OneMore count place places.old result places.new }
{
    if count < MOST_LEGS {
        places[count] = place;
        count + 1
    } else {
        33
    }
}

// A repeat's legs stand at the numbers `from` up to `to`, flown once: they are copied for the other rounds, so that no body is walked twice.
fn put_rounds(places: &mut [usize], from: usize, to: usize, times: usize) -> usize
    requires { (length places.old ≡ most_legs) × (from ≤ to) × (to ≤ 33) × (1 ≤ times) × (times ≤ 9) }
    ensures { Rounds times from to places.old result places.new }
{
    let legs = to - from;
    let end = at_most_33(from + times * legs);
    if end > MOST_LEGS {
        return end;
    }
    for i in to..end {
        places[i] = places[i - legs];
    }
    end
}

// The items from `from` up to `end`, in which repeats may stand `depth` deep, after so many legs: none if the bytes are broken.
#[cycle(expand_expand_item)]
pub(crate) fn expand(
    b: &[u8],
    from: usize,
    end: usize,
    depth: usize,
    places: &mut [usize],
    count: usize,
) -> Option<Past>
    requires { (from ≤ end) × (end ≤ length b.now) × (length places.old ≡ most_legs) × (count ≤ 33) }
    ensures { Walk b.now (read depth (slice from end b.now)) end count places.old result places.new }
{
    let mut past = Past {
        next: from,
        legs: count,
    };
    while past.next < end {
        past = expand_item(b, past.next, end, depth, places, past.legs)?;
    }
    Some(past)
}

// The item at `at`, of a pattern that ends at `end`.
#[cycle(expand_expand_item)]
fn expand_item(
    b: &[u8],
    at: usize,
    end: usize,
    depth: usize,
    places: &mut [usize],
    count: usize,
) -> Option<Past>
    requires { (at < end) × (end ≤ length b.now) × (length places.old ≡ most_legs) × (count ≤ 33) }
    ensures { Walk b.now (item_within depth (slice at end b.now)) (at + size_of (head_of (slice at end b.now))) count places.old result places.new }
{
    match head_at(b, at, end) {
        None => None,
        Some(Head::Leg) => Some(Past {
            next: at + LEG_ITEM_BYTES,
            legs: put_place(places, count, at + 1),
        }),
        Some(Head::Repeat { times, inner }) => {
            if depth == 0 {
                return None;
            }
            let body = expand(b, at + 4, at + 4 + inner, depth - 1, places, count)?;
            Some(Past {
                next: body.next,
                legs: put_rounds(places, count, body.legs, times),
            })
        }
    }
}
