// How a log stands in bytes: records of a tick's input and answer, then a trailer of three words, the count, how many bytes back the first record
// starts, and the bytes of a record.
ghost use Rattle.std.specs.Prelude.{◌≡◌, ◌≤◌, length};
ghost use Rattle.flight_log.specs.Form.{log_trailer_bytes, from_end, record_count, is_log};

use image::{ANSWER_BYTES, INPUT_BYTES};
use words::four_bytes;

pub const RECORD_BYTES: usize = INPUT_BYTES + ANSWER_BYTES;

pub const TRAILER_BYTES: usize = 12;

pub const MOST_RECORDS: usize = 65535;

// The word that starts so many bytes before the end.
#[tactic(auto, unfolding(crate::specs::Form::from_end))]
fn from_end(log: &[u8], back: usize) -> usize
    requires { (4 ≤ back) × (back ≤ length log.now) }
    ensures { result ≡ from_end log.now back }
{
    four_bytes(log, log.len() - back) as usize
}

pub(crate) fn record_count(log: &[u8]) -> usize
    requires { log_trailer_bytes ≤ length log.now }
    ensures { result ≡ record_count log.now }
{
    from_end(log, TRAILER_BYTES)
}

// The count is tested before it is multiplied: 108 times 2^30 is 0 in 32 bits.
#[tactic(auto, unfolding(crate::specs::Form::is_log))]
pub fn is_log(log: &[u8]) -> bool
    ensures { result ≡ is_log log.now }
{
    log.len() >= TRAILER_BYTES
        && from_end(log, 4) == RECORD_BYTES
        && record_count(log) <= MOST_RECORDS
        && from_end(log, 8) == RECORD_BYTES * record_count(log)
        && log.len() == RECORD_BYTES * record_count(log) + TRAILER_BYTES
}
