// One record more, in the caller's buffer. Nothing is asked of the caller; a refused call changes no byte. The work is the same whatever the log's
// length.
ghost use Rattle.std.specs.Prelude.{◌≡◌, ◌+◌, ◌*◌, ◌<◌, ◌≤◌, length};
ghost use Rattle.words.specs.Words.{Put};
ghost use Rattle.image.specs.Layout.{input_bytes, answer_bytes};
ghost use Rattle.outcome.specs.Outcomes.{left};
ghost use Rattle.flight_log.specs.Form.{record_bytes, log_trailer_bytes, most_records, trailer_words};
ghost use Rattle.flight_log.specs.Entry.{append_refusal, with_record, append_call};

use super::form::{MOST_RECORDS, RECORD_BYTES, is_log, record_count};
use image::{ANSWER_BYTES, INPUT_BYTES};
use outcome::{Outcome, Refusal};
use words::{put_bytes, put_word};

// What an append would be refused for.
#[tactic(auto, using(crate::proofs::LogForm::is_a_log), unfolding(crate::specs::Entry::append_refusal))]
fn append_refusal(buffer: &[u8], log_len: usize, input_len: usize, answer_len: usize) -> Outcome
    ensures { result ≡ append_refusal buffer.now log_len input_len answer_len }
{
    if input_len != INPUT_BYTES {
        return Err(Refusal::InputLength);
    }
    if answer_len != ANSWER_BYTES {
        return Err(Refusal::AnswerLength);
    }
    let log = buffer.get(..log_len).ok_or(Refusal::BrokenLog)?;
    if !is_log(log) {
        return Err(Refusal::BrokenLog);
    }
    if buffer.len() - log_len < RECORD_BYTES || record_count(log) == MOST_RECORDS {
        return Err(Refusal::NoRoom);
    }
    Ok(())
}

// The trailer of so many records, from word k on.
fn put_trailer(buffer: &mut [u8], k: usize, count: usize)
    requires { (4 * k + log_trailer_bytes ≤ length buffer.old) × (count ≤ most_records) }
    ensures { Put buffer.old k (trailer_words count) buffer.new }
{
    put_word(buffer, k, count as u32);
    put_word(buffer, k + 1, (RECORD_BYTES * count) as u32);
    put_word(buffer, k + 2, RECORD_BYTES as u32);
}

// The record of an input and an answer after so many others, and the trailer after it. Bytes are copied as they stand.
fn put_record(buffer: &mut [u8], count: usize, input: &[u8], answer: &[u8])
    requires input_len { (length input.now ≡ input_bytes) × (length answer.now ≡ answer_bytes) }
    requires count_in_bounds { (record_bytes * count + record_bytes + log_trailer_bytes ≤ length buffer.old) × (count < most_records) }
    ensures { buffer.new ≡ with_record buffer.old (record_bytes * count) (count + 1) input.now answer.now }
{
    let at = RECORD_BYTES * count;
    put_bytes(buffer, at, input);
    put_bytes(buffer, at + INPUT_BYTES, answer);
    put_trailer(buffer, (at + RECORD_BYTES) / 4, count + 1);
}

// The record takes the place of the old trailer.
#[tactic(auto, unfolding(crate::specs::Entry::append_call))]
pub fn append(buffer: &mut [u8], log_len: usize, input: &[u8], answer: &[u8]) -> Outcome
    ensures { left result buffer.new ≡ append_call buffer.old log_len input.now answer.now }
{
    append_refusal(buffer, log_len, input.len(), answer.len())?;
    let count = record_count(&buffer[..log_len]);
    put_record(buffer, count, input, answer);
    Ok(())
}
