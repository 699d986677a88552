// The count and a record into buffers of the caller's, for callers that hold no slice of ours. Nothing is asked of them; a refused call changes no byte.
ghost use Rattle.std.specs.Prelude.{◌≡◌};
ghost use Rattle.outcome.specs.Outcomes.{left};
ghost use Rattle.flight_log.specs.Entry.{count_call, record_call};

use super::form::{RECORD_BYTES, is_log, record_count};
use super::record::record_at;
use outcome::{Outcome, Refusal};
use words::{put_bytes, put_word};

// The count as a word. A buffer of a wrong length for it has the number that a wrong input has.
#[tactic(auto, using(crate::proofs::LogForm::is_a_log), unfolding(crate::specs::Entry::count_call))]
pub fn count_into(log: &[u8], count: &mut [u8]) -> Outcome
    ensures { left result count.new ≡ count_call log.now count.old }
{
    if count.len() != 4 {
        return Err(Refusal::InputLength);
    }
    if !is_log(log) {
        return Err(Refusal::BrokenLog);
    }
    put_word(count, 0, record_count(log) as u32);
    Ok(())
}

// The record at a place.
#[tactic(auto, using(crate::proofs::LogForm::record_length, words::proofs::Written::over_all), unfolding(crate::specs::Entry::record_call))]
pub fn record_into(log: &[u8], place: usize, into: &mut [u8]) -> Outcome
    ensures { left result into.new ≡ record_call log.now place into.old }
{
    if into.len() != RECORD_BYTES {
        return Err(Refusal::RecordLength);
    }
    if !is_log(log) {
        return Err(Refusal::BrokenLog);
    }
    let record = record_at(log, place).ok_or(Refusal::NoRecord)?;
    put_bytes(into, 0, record);
    Ok(())
}
