// The reader: the lent log, and a place in it; 0 is the start. Each function takes it apart and calls one on the slice and the number (record.rt).
ghost use Rattle.std.specs.Prelude.{◌≡◌};
ghost use Rattle.flight_log.specs.Records.{record_at, place_after};

use super::record::{place_after, record_at};

#[derive(Clone, Copy)]
pub struct Reader<'a> {
    pub log: &'a [u8],
    pub place: usize,
}

// The next record, as a part of the lent log, or no byte where there is none.
#[tactic(auto, unfolding(crate::specs::Records::record_at))]
pub fn next<'a>(reader: Reader<'a>) -> &'a [u8]
    ensures { result.now ≡ record_at reader.entry.log.now reader.entry.place }
{
    record_at(reader.log, reader.place).unwrap_or(&[])
}

// The reader past that record.
pub fn moved<'a>(reader: Reader<'a>) -> Reader<'a>
    ensures { (result.log ≡ reader.entry.log) × (result.place ≡ place_after reader.entry.log.now reader.entry.place) }
{
    Reader {
        place: place_after(reader.log, reader.place),
        ..reader
    }
}
