// The three filters: read, written, made, stepped, reset.
ghost use Rattle.std.specs.Prelude.{◌≡◌, ◌+◌, ◌*◌, ◌≤◌, length};
ghost use Rattle.words.specs.Words.{words_of, Put};
ghost use Rattle.desk.specs.Filters.{desk_bytes, desk_setup_bytes, stick_filter_at, new_at, desk_at, desk_set_up, desk_step, desk_centre, floats_of_filter, desk_of};

use relay_adrc::CommandFilter;
use relay_math::Vec3;
use words::{float_at, put_float, put_three};

pub const DESK_BYTES: usize = 60;

pub const DESK_SETUP_BYTES: usize = 36;

pub const STICKS_BYTES: usize = 12;

const FILTER_WORDS: usize = 5;

const NEW_WORDS: usize = 3;

// Named by what the value of each is for.
#[derive(Clone, Copy)]
pub struct Desk {
    pub heading: CommandFilter,
    pub turn: CommandFilter, // the heading's rate
    pub zoom: CommandFilter, // the zoom's rate
}

fn filter_at(bytes: &[u8], k: usize) -> CommandFilter
    requires { 4 * k + 20 ≤ length bytes.now }
    ensures { result ≡ stick_filter_at bytes.now k }
{
    CommandFilter {
        omega_n: float_at(bytes, k),
        max_mag: float_at(bytes, k + 1),
        max_rate: float_at(bytes, k + 2),
        y: float_at(bytes, k + 3),
        yd: float_at(bytes, k + 4),
    }
}

pub(crate) fn desk_at(desk: &[u8]) -> Desk
    requires { length desk.now ≡ desk_bytes }
    ensures { result ≡ desk_at desk.now }
{
    Desk {
        heading: filter_at(desk, 0),
        turn: filter_at(desk, FILTER_WORDS),
        zoom: filter_at(desk, 2 * FILTER_WORDS),
    }
}

fn put_filter(bytes: &mut [u8], k: usize, f: CommandFilter)
    requires { 4 * k + 20 ≤ length bytes.old }
    ensures { Put bytes.old k (words_of (floats_of_filter f)) bytes.new }
{
    put_three(bytes, k, f.omega_n, f.max_mag, f.max_rate);
    put_float(bytes, k + 3, f.y);
    put_float(bytes, k + 4, f.yd);
}

pub(crate) fn put_desk(bytes: &mut [u8], d: Desk)
    requires { length bytes.old ≡ desk_bytes }
    ensures { bytes.new ≡ desk_of d }
{
    put_filter(bytes, 0, d.heading);
    put_filter(bytes, FILTER_WORDS, d.turn);
    put_filter(bytes, 2 * FILTER_WORDS, d.zoom);
}

// A filter of a stick's three numbers, mended as the Rust's `new` mends them.
fn new_at(input: &[u8], k: usize) -> CommandFilter
    requires { 4 * k + 12 ≤ length input.now }
    ensures { result ≡ new_at input.now k }
{
    CommandFilter::new(
        float_at(input, k),
        float_at(input, k + 1),
        float_at(input, k + 2),
    )
}

pub(crate) fn set_up(input: &[u8]) -> Desk
    requires { length input.now ≡ desk_setup_bytes }
    ensures { result ≡ desk_set_up input.now }
{
    Desk {
        heading: new_at(input, 0),
        turn: new_at(input, NEW_WORDS),
        zoom: new_at(input, 2 * NEW_WORDS),
    }
}

// Each filter by its stick. The dt is handed on as it was given: the filter cleans it.
pub(crate) fn step(d: Desk, sticks: Vec3, dt: f32) -> Desk
    ensures { result ≡ desk_step d sticks dt }
{
    Desk {
        heading: d.heading.step(sticks.0, dt).filter,
        turn: d.turn.step(sticks.1, dt).filter,
        zoom: d.zoom.step(sticks.2, dt).filter,
    }
}

pub(crate) fn centred(d: Desk) -> Desk
    ensures { result ≡ desk_centre d }
{
    Desk {
        heading: d.heading.reset(),
        turn: d.turn.reset(),
        zoom: d.zoom.reset(),
    }
}
