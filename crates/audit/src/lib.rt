// Logs from other boxes (request Ten of document 02): whether a log's flags are those that its own margins demand, and its commands those that its flags
// demand. One pass over the lent log, which is only read.
#![tactic(auto)]

ghost use Rattle.std.specs.Prelude.{◌≡◌, true, ◌<◌, length};
ghost use Rattle.std.specs.Float.Ieee.{lt};
ghost use Rattle.outcome.specs.Outcomes.{left};
ghost use Rattle.flight_log.specs.Form.{record_bytes, is_log};
ghost use Rattle.flight_log.specs.Records.{records};
ghost use Rattle.image.specs.Passed.{passed_on};
ghost use Rattle.audit.specs.Right.{passes, passes_third, planners, finite_on, finites, right};
ghost use Rattle.audit.specs.Verdict.{verdict_of, verdict_word};
ghost use Rattle.audit.specs.Entry.{check_call};

use flight_log::{RECORD_BYTES, TRAILER_BYTES, is_log};
use image::{AGILE, INPUT_WORDS};
use joint_tick::{Profile, is_profile, profile_of};
use latch::latch;
use outcome::{Outcome, Refusal};
use relay_geo::mend;
use relay_math::is_finite;
use words::{float_at, float_of, put_word, word_at};

// The words of a record's answer that are looked at; it stands behind the input.
const COMMAND: usize = INPUT_WORDS + image::COMMAND;

const FLAG: usize = INPUT_WORDS + image::FLAG;

const MARGIN: usize = INPUT_WORDS + image::MARGIN;

// A verdict is the place of the first wrong record, counted from 0, if there is one.
fn verdict_word(verdict: Option<u32>) -> u32
    ensures { result ≡ verdict_word verdict }
{
    verdict.unwrap_or(0xffff_ffff)
}

fn passed_on(w: u32) -> u32
    ensures { result ≡ passed_on w }
{
    if is_finite(float_of(w)) { w } else { 0 }
}

// The command's word on an axis is the planner's, in bits: as numbers -0.0 would do for 0.0.
#[tactic(auto, unfolding(crate::specs::Right::passes))]
fn passes(bytes: &[u8], axis: usize) -> bool
    requires { (length bytes.now ≡ record_bytes) × (axis < 3) }
    ensures { result ≡ passes bytes.now axis }
{
    word_at(bytes, COMMAND + axis) == passed_on(word_at(bytes, AGILE + axis))
}

#[tactic(auto, unfolding(crate::specs::Right::passes_third))]
fn passes_third(bytes: &[u8], profile: Profile) -> bool
    requires { length bytes.now ≡ record_bytes }
    ensures { result ≡ passes_third profile bytes.now }
{
    match profile {
        Profile::Whole => passes(bytes, 2),
        Profile::LostRotor => word_at(bytes, COMMAND + 2) == 0,
    }
}

#[tactic(auto, unfolding(crate::specs::Right::planners))]
fn planners(bytes: &[u8], profile: Profile) -> bool
    requires { length bytes.now ≡ record_bytes }
    ensures { result ≡ planners profile bytes.now }
{
    passes(bytes, 0) && passes(bytes, 1) && passes_third(bytes, profile)
}

#[tactic(auto, unfolding(crate::specs::Right::finite_on, words::specs::Words::float))]
fn finite_on(bytes: &[u8], axis: usize) -> bool
    requires { (length bytes.now ≡ record_bytes) × (axis < 3) }
    ensures { result ≡ finite_on bytes.now axis }
{
    is_finite(float_at(bytes, COMMAND + axis))
}

#[tactic(auto, unfolding(crate::specs::Right::finites))]
fn finites(bytes: &[u8]) -> bool
    requires { length bytes.now ≡ record_bytes }
    ensures { result ≡ finites bytes.now }
{
    finite_on(bytes, 0) && finite_on(bytes, 1) && finite_on(bytes, 2)
}

// By the flag that is demanded of it.
#[tactic(auto, unfolding(crate::specs::Right::right))]
fn right(bytes: &[u8], profile: Profile, engaged: bool) -> bool
    requires { length bytes.now ≡ record_bytes }
    ensures { result ≡ right profile engaged bytes.now }
{
    let flag = word_at(bytes, FLAG);
    if engaged {
        flag == 1 && finites(bytes)
    } else {
        flag == 0 && planners(bytes, profile)
    }
}

// The flag that is demanded is carried along, by the margins alone.
fn judged(log: &[u8], profile: Profile, enter: f32, exit: f32) -> Option<u32>
    requires { (is_log log.now ≡ true) × (lt enter exit ≡ true) }
    ensures { result ≡ verdict_of profile enter exit (records log.now) }
{
    let records = &log[..log.len() - TRAILER_BYTES];
    let mut engaged = true;
    for (i, record) in records.chunks_exact(RECORD_BYTES).enumerate() {
        engaged = latch(enter, exit, engaged, float_at(record, MARGIN));
        if !right(record, profile, engaged) {
            return Some(i as u32);
        }
    }
    None
}

// The verdict on a log as a word. Nothing is asked of the caller; a refused call changes no byte.
pub fn check_into(log: &[u8], profile: u32, enter: f32, exit: f32, into: &mut [u8]) -> Outcome
    ensures { left result into.new ≡ check_call log.now profile enter exit into.old }
{
    if into.len() != 4 {
        return Err(Refusal::InputLength);
    }
    if !is_log(log) {
        return Err(Refusal::BrokenLog);
    }
    if !is_profile(profile) {
        return Err(Refusal::BadProfile);
    }
    let t = mend(enter, exit);
    let v = judged(log, profile_of(profile), t.enter, t.exit);
    put_word(into, 0, verdict_word(v));
    Ok(())
}
