// The leg flown, over any count, and its sample.
ghost use Rattle.std.specs.Prelude.{◌≡◌, ◌+◌, ◌*◌, ◌<◌, ◌≤◌, length};
ghost use Rattle.words.specs.Words.{float};
ghost use Rattle.relay_traj.specs.Quintic.{mend_ends};
ghost use Rattle.image.specs.Layout.{leg_bytes};
ghost use Rattle.lent_tick.specs.Inner.{given_unless};
ghost use Rattle.route.specs.Form.{form_refusal};
ghost use Rattle.route.specs.Entry.{on_route};
ghost use Rattle.route.specs.Legs.{duration_of, sample_of, sample_on, reference_of, reference_on, PassedBy};

use super::form::{form_refusal, leg_count};
use image::{LEG_WORDS, leg_at};
use joint_tick::{Reference, reference_at, sample_at, segment_of};
use outcome::Refusal;
use relay_traj::{Mended, Quintic, Sample3, Segment3, mended_duration};
use words::{finite_at, float_at};

// A leg's last word.
const DURATION: usize = 18;

// How many legs a time is past, and where the last of them ends.
#[derive(Clone, Copy)]
pub struct Behind {
    pub legs: usize,
    pub end: f32,
}

// Where the craft should be: the leg flown, counted from 0, and its sample.
#[derive(Clone, Copy)]
pub struct Sampled {
    pub leg: usize,
    pub sample: Sample3,
}

#[tactic(auto, unfolding(crate::specs::Legs::duration_of, image::specs::Parts::leg_at))]
fn duration_of(route: &[u8], i: usize) -> f32
    requires { leg_bytes * i + leg_bytes ≤ length route.now }
    ensures { result ≡ duration_of route.now i }
{
    mended_duration(float_at(route, LEG_WORDS * i + DURATION))
}

// One axis of a leg, mended as it is read: its p0 is word k, and the others stand three words apart.
#[tactic(auto, unfolding(relay_traj::specs::Quintic::mend_ends))]
fn axis_at(route: &[u8], k: usize, t: f32) -> Mended
    requires { 4 * k + 64 ≤ length route.now }
    ensures { let b = route.now in result ≡ mend_ends (float b k) (float b (k + 3)) (float b (k + 6)) (float b (k + 9)) (float b (k + 12)) (float b (k + 15)) t }
{
    let p0 = finite_at(route, k, 0.0);
    Mended {
        p0,
        v0: finite_at(route, k + 3, 0.0),
        a0: finite_at(route, k + 6, 0.0),
        pf: finite_at(route, k + 9, p0),
        vf: finite_at(route, k + 12, 0.0),
        af: finite_at(route, k + 15, 0.0),
        t: mended_duration(t),
    }
}

// The base's own sample, of one leg. Its segment is made of the words at once, which is quicker than a leg read first and `segment_of` called on it
// (docs/SPEED.md).
fn reference_of(route: &[u8], i: usize, at: f32) -> Reference
    requires { leg_bytes * i + leg_bytes ≤ length route.now }
    ensures { result ≡ reference_of route.now i at }
{
    let k = LEG_WORDS * i;
    let t = float_at(route, k + DURATION);
    let x = Quintic::of_mended(axis_at(route, k, t));
    let y = Quintic::of_mended(axis_at(route, k + 1, t));
    let z = Quintic::of_mended(axis_at(route, k + 2, t));
    reference_at(Segment3(x, y, z), at)
}

// All that a leg asks at a time. No tick calls it, so it may take the plain way: a leg read, and `segment_of` it.
#[tactic(auto, unfolding(crate::specs::Legs::sample_of))]
fn sample_of(route: &[u8], i: usize, at: f32) -> Sampled
    requires { leg_bytes * i + leg_bytes ≤ length route.now }
    ensures { result ≡ sample_of route.now i at }
{
    let leg = leg_at(route, LEG_WORDS * i);
    let sample = sample_at(segment_of(leg), at);
    Sampled { leg: i, sample }
}

// The legs whose ends are not above the time, up to the first whose end is.
fn passed(route: &[u8], count: usize, time: f32) -> Behind
    requires { leg_bytes * count ≤ length route.now }
    ensures { PassedBy route.now count time result }
{
    let mut end = 0.0;
    for i in 0..count {
        let next = end + duration_of(route, i);
        if time < next {
            return Behind { legs: i, end };
        }
        end = next;
    }
    Behind { legs: count, end }
}

// Of the first leg whose end is above the time, at the time less the end before it; past all ends of the last leg, at its duration. The two calls keep
// `reference_of` from being inlined, so that its stack is free again when the tick goes on: 128 bytes, for next to no time.
fn reference_on(route: &[u8], count: usize, time: f32) -> Reference
    requires { (0 < count) × (leg_bytes * count ≤ length route.now) }
    ensures { result ≡ reference_on route.now count time }
{
    let before = passed(route, count, time);
    if before.legs < count {
        return reference_of(route, before.legs, time - before.end);
    }
    reference_of(route, count - 1, duration_of(route, count - 1))
}

// A route tick's reference, or what its route is refused for.
pub(crate) fn reference_in_form(route: &[u8], time: f32) -> Result<Reference, Refusal>
    ensures { result ≡ given_unless (form_refusal route.now) (on_route route.now time) }
{
    form_refusal(route)?;
    Ok(reference_on(route, leg_count(route), time))
}

pub(crate) fn sample_on(route: &[u8], count: usize, time: f32) -> Sampled
    requires { (0 < count) × (leg_bytes * count ≤ length route.now) }
    ensures { result ≡ sample_on route.now count time }
{
    let before = passed(route, count, time);
    if before.legs < count {
        return sample_of(route, before.legs, time - before.end);
    }
    sample_of(route, count - 1, duration_of(route, count - 1))
}
