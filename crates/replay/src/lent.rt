// The calls on lent bytes: set-up, number 500, tick, 501, and route tick, 502; append to a log, 503, its count, 504, and a record of it, 505; exchange, 506;
// flags, 507; the sample of a route, 508; the refusal of a tick, 509; the check of a log, 510; a pattern, 511.
use super::buffer::{Buffer, is_number};
use super::list::{Stop, read_up_to};
use outcome::{Outcome, Refusal};
use std::io::{self, Read};
use words::{float_at, word_at};

// A call takes those of the four buffers that it has, and `at`, a log's length or a place in it.
#[derive(Default, Drop)]
struct Lent {
    a: Buffer,
    b: Buffer,
    c: Buffer,
    d: Buffer,
    at: usize,
}

// The calls that take numbers are lent them as words: none where those are too few.
fn called_on_words(n: u32, b: &[u8], c: &mut [u8], d: &[u8]) -> Option<Outcome> {
    Some(match n {
        507 => {
            let given = d.first_chunk::<8>()?;
            slow_shield::flags_into(b, float_at(given, 0), float_at(given, 1), c)
        }
        508 => {
            let given = b.first_chunk::<4>()?;
            route::route_sample(d, float_at(given, 0), c)
        }
        509 => {
            let given = d.first_chunk::<8>()?;
            calls::tick_refusal(b, word_at(given, 0) as usize, word_at(given, 1) as usize)
        }
        _ => {
            let given = b.first_chunk::<12>()?;
            audit::check_into(
                d,
                word_at(given, 0),
                float_at(given, 1),
                float_at(given, 2),
                c,
            )
        }
    })
}

impl Lent {
    fn read(&mut self, reader: &mut impl Read) -> io::Result<()> {
        let mut at = [0u8; 4];
        self.a.read(reader)?;
        self.b.read(reader)?;
        self.c.read(reader)?;
        self.d.read(reader)?;
        read_up_to(reader, &mut at)?;
        self.at = u32::from_le_bytes(at) as usize;
        Ok(())
    }

    // The number that the call ends with; none where the list lends more of a buffer than there is.
    fn call(&mut self, n: u32) -> Option<u32> {
        let at = self.at;
        let a = self.a.lent_mut()?;
        let b = self.b.lent()?;
        let c = self.c.lent_mut()?;
        let d = self.d.lent()?;
        Some(outcome::number(match n {
            500 => calls::setup(a, b),
            501 => calls::tick(a, b, c),
            502 => route::route_tick(a, b, d, c),
            503 => flight_log::append(a, at, b, d),
            504 => flight_log::count_into(b, c),
            505 => flight_log::record_into(b, at, c),
            506 => calls::exchange(a, b),
            507..=510 => called_on_words(n, b, c, d).unwrap_or(Err(Refusal::InputLength)),
            _ => pattern::expand_into(d, a, c),
        }))
    }
}

// Stored: the four buffers and `at`; then the number, and the two buffers that a call may change. All are read before a list is told to be cut.
pub(crate) fn is_same(reader: &mut impl Read, n: u32) -> Result<bool, Stop> {
    let mut lent = Lent::default();
    lent.read(reader)?;
    let number = lent.call(n);
    let number_is = is_number(reader, number)?;
    let a_is = lent.a.is_left(reader)?;
    let c_is = lent.c.is_left(reader)?;
    let (Some(number_is), Some(a_is), Some(c_is)) = (number_is, a_is, c_is) else {
        return Err(Stop::Cut);
    };
    Ok(number_is && a_is && c_is)
}
