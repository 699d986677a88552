// The records of a log, by their place. Bytes that are no log have none, and neither has a place at or beyond the count.
ghost use Rattle.std.specs.Prelude.{◌≡◌, IfSome};
ghost use Rattle.std.specs.Option.{is_some};
ghost use Rattle.flight_log.specs.Records.{has_record, record_at, place_after};

use super::form::{RECORD_BYTES, is_log, record_count};

#[tactic(auto, using(crate::proofs::LogForm::is_a_log), unfolding(crate::specs::Records::has_record))]
pub(crate) fn has_record(log: &[u8], place: usize) -> bool
    ensures { result ≡ has_record log.now place }
{
    is_log(log) && place < record_count(log)
}

// A part of the lent log: the record's bytes, if there is one.
#[tactic(auto, using(crate::proofs::LogForm::there), unfolding(crate::specs::Records::record_at))]
pub(crate) fn record_at(log: &[u8], place: usize) -> Option<&[u8]>
    ensures found { is_some result ≡ has_record log.now place }
    ensures bytes { IfSome result (λ found. found.now ≡ record_at log.now place) }
{
    if has_record(log, place) {
        let from = RECORD_BYTES * place;
        Some(&log[from..from + RECORD_BYTES])
    } else {
        None
    }
}

// The next place, or this one where there is no record: so that none is handed out for ever after the last.
#[tactic(auto, using(crate::proofs::LogForm::there), unfolding(crate::specs::Records::place_after))]
pub(crate) fn place_after(log: &[u8], place: usize) -> usize
    ensures { result ≡ place_after log.now place }
{
    if has_record(log, place) {
        place + 1
    } else {
        place
    }
}
