// Where the craft should be on a route at a time, on lent bytes. Nothing is asked of the caller; a refused call changes no byte.
ghost use Rattle.std.specs.Prelude.{◌≡◌, ◌<◌, length};
ghost use Rattle.outcome.specs.Outcomes.{left};
ghost use Rattle.route.specs.Form.{most_legs};
ghost use Rattle.route.specs.Entry.{sample_byte_count, sample_bytes, sample_call};

use super::form::{form_refusal, leg_count};
use super::legs::{Sampled, sample_on};
use outcome::{Outcome, Refusal};
use words::{put_vec, put_word};

pub const SAMPLE_BYTES: usize = 52;

// The words where each part starts; the leg is word 0.
const POS: usize = 1;

const VEL: usize = 4;

const ACC: usize = 7;

const JERK: usize = 10;

fn put_sample(bytes: &mut [u8], s: Sampled)
    requires { (length bytes.old ≡ sample_byte_count) × (s.leg < most_legs) }
    ensures { bytes.new ≡ sample_bytes s }
{
    put_word(bytes, 0, s.leg as u32);
    put_vec(bytes, POS, s.sample.pos);
    put_vec(bytes, VEL, s.sample.vel);
    put_vec(bytes, ACC, s.sample.acc);
    put_vec(bytes, JERK, s.sample.jerk);
}

// The leg flown, counted from 0, then position, velocity, acceleration and jerk: what a tick on the route at that time would go by, and where. Every bit of the time
// has an answer, as a tick takes it.
pub fn route_sample(route: &[u8], time: f32, sample: &mut [u8]) -> Outcome
    ensures { left result sample.new ≡ sample_call route.now time sample.old }
{
    if sample.len() != SAMPLE_BYTES {
        return Err(Refusal::AnswerLength);
    }
    form_refusal(route)?;
    put_sample(sample, sample_on(route, leg_count(route), time));
    Ok(())
}
