// Set-up, the centre button and the desk ticks on lent bytes. Nothing is asked of the caller; a refused call changes no byte of any buffer.
ghost use Rattle.std.specs.Prelude.{◌≡◌, ◌∷◌, [], length};
ghost use Rattle.words.specs.Words.{Put};
ghost use Rattle.image.specs.Layout.{YAW as yaw_word, input_bytes};
ghost use Rattle.outcome.specs.Outcomes.{left};
ghost use Rattle.desk.specs.declared.entry.DeskRefusal.TheVariants.{Core};
ghost use Rattle.desk.specs.Filters.{desk_bytes, sticks_bytes};
ghost use Rattle.desk.specs.Entry.{DeskDone, desk_refusal_number, desk_number, desk_refusal, desk_set_up_call, centre_call};
ghost use Rattle.desk.specs.Entry.{with_heading, moved, flown_input, lent_to_desk, OnSegment, OnRoute, desk_tick_call};
ghost use Rattle.desk.specs.Inner.{CoreGives, TicksBy};

use crate::filters::{
    DESK_BYTES, DESK_SETUP_BYTES, Desk, STICKS_BYTES, centred, desk_at, put_desk, set_up, step,
};
use image::{DT, YAW, YAW_RATE};
use lent_tick::right_lengths;
use outcome::{Outcome, Refusal};
use words::{float_at, put_float, put_word, vec_at, word_at};

// What a call on a desk is refused for. The core's refusals are handed on as they are; the two of the desk's own come before them.
#[derive(Clone, Copy, PartialEq, Eq)]
pub enum DeskRefusal {
    DeskLength, // the desk's state
    SticksLength, // what is said of the sticks: their set-up, or where they stand
    Core(Refusal),
}

// `Ok` where the call was not refused.
pub type DeskOutcome = Result<(), DeskRefusal>;

impl From<Refusal> for DeskRefusal {
    ghost from_gives = { λ refusal r. r ≡ Core refusal };

    fn from(refusal: Refusal) -> DeskRefusal {
        DeskRefusal::Core(refusal)
    }
}

// The core's own numbers, and 15 and 16, which are ours, since no document gives one.
impl From<DeskRefusal> for u32 {
    ghost from_gives = { λ refusal n. n ≡ desk_refusal_number refusal };

    fn from(refusal: DeskRefusal) -> u32 {
        match refusal {
            DeskRefusal::DeskLength => 15,
            DeskRefusal::SticksLength => 16,
            DeskRefusal::Core(core) => u32::from(core),
        }
    }
}

// 0 where the call was not refused.
pub fn desk_number(outcome: DeskOutcome) -> u32
    ensures { result ≡ desk_number outcome }
{
    match outcome {
        Ok(()) => 0,
        Err(refusal) => u32::from(refusal),
    }
}

// The desk's length, and the length of what is said of the sticks.
fn desk_lengths(desk_len: usize, sticks_len: usize, right: usize) -> DeskOutcome
    ensures { result ≡ desk_refusal desk_len sticks_len right DeskDone }
{
    if desk_len != DESK_BYTES {
        return Err(DeskRefusal::DeskLength);
    }
    if sticks_len != right {
        return Err(DeskRefusal::SticksLength);
    }
    Ok(())
}

// A fresh desk from 9 words. What it held before is not read.
pub fn setup(desk: &mut [u8], input: &[u8]) -> DeskOutcome
    ensures { left result desk.new ≡ desk_set_up_call desk.old input.now }
{
    desk_lengths(desk.len(), input.len(), DESK_SETUP_BYTES)?;
    put_desk(desk, set_up(input));
    Ok(())
}

// The centre button: it resets the filters and steps none.
pub fn centre(desk: &mut [u8]) -> DeskOutcome
    ensures { left result desk.new ≡ centre_call desk.old }
{
    if desk.len() != DESK_BYTES {
        return Err(DeskRefusal::DeskLength);
    }
    put_desk(desk, centred(desk_at(desk)));
    Ok(())
}

fn put_heading(input: &mut [u8], heading: f32, turn: f32)
    requires { length input.old ≡ input_bytes }
    ensures { input.new ≡ with_heading input.old heading turn }
{
    put_float(input, YAW, heading);
    put_float(input, YAW_RATE, turn);
}

// The two words as they stood.
fn put_back(input: &mut [u8], yaw: u32, yaw_rate: u32)
    requires { length input.old ≡ input_bytes }
    ensures { Put input.old yaw_word (yaw ∷ yaw_rate ∷ []) input.new }
{
    put_word(input, YAW, yaw);
    put_word(input, YAW_RATE, yaw_rate);
}

// The desk stepped, not yet kept, and its heading in the input.
fn step_into(desk: &[u8], sticks: &[u8], input: &mut [u8]) -> Desk
    requires { (length desk.now ≡ desk_bytes) × (length sticks.now ≡ sticks_bytes) × (length input.old ≡ input_bytes) }
    ensures { (result ≡ moved desk.now sticks.now input.old) × (input.new ≡ flown_input desk.now sticks.now input.old) }
{
    let moved = step(desk_at(desk), vec_at(sticks, 0), float_at(input, DT));
    put_heading(input, moved.heading.y, moved.turn.y);
    moved
}

// A desk tick, whichever tick of the core it flies. The core is not asked beforehand whether it would refuse: that would judge every image twice (docs/SPEED.md says what it costs). Where it refuses,
// the two words of the input that were written for it are put back, and nothing else was written.
fn tick_by<F: FnOnce(&mut [u8], &[u8], &mut [u8]) -> Outcome>(
    desk: &mut [u8],
    sticks: &[u8],
    image: &mut [u8],
    input: &mut [u8],
    answer: &mut [u8],
    core: F,
) -> DeskOutcome
    requires { F.IsAlwaysCallable core }
    ensures { TicksBy (CoreGives F.FnOnce core) desk.old sticks.now image.old input.old answer.old (left result (lent_to_desk desk.new image.new input.new answer.new)) }
{
    desk_lengths(desk.len(), sticks.len(), STICKS_BYTES)?;
    right_lengths(image.len(), input.len(), answer.len())?;
    let yaw = word_at(input, YAW);
    let yaw_rate = word_at(input, YAW_RATE);
    let moved = step_into(desk, sticks, input);
    match core(image, input, answer) {
        Ok(()) => {
            put_desk(desk, moved);
            Ok(())
        }
        Err(refusal) => {
            put_back(input, yaw, yaw_rate);
            Err(DeskRefusal::Core(refusal))
        }
    }
}

// A desk tick on the image's segment.
pub fn tick(
    desk: &mut [u8],
    sticks: &[u8],
    image: &mut [u8],
    input: &mut [u8],
    answer: &mut [u8],
) -> DeskOutcome
    ensures { left result (lent_to_desk desk.new image.new input.new answer.new) ≡ desk_tick_call OnSegment desk.old sticks.now image.old input.old answer.old }
{
    tick_by(desk, sticks, image, input, answer, |image, input, answer| {
        calls::tick(image, input, answer)
    })
}

// A desk tick on a route.
pub fn route_tick(
    desk: &mut [u8],
    sticks: &[u8],
    image: &mut [u8],
    input: &mut [u8],
    route: &[u8],
    answer: &mut [u8],
) -> DeskOutcome
    ensures { left result (lent_to_desk desk.new image.new input.new answer.new) ≡ desk_tick_call (OnRoute route.now) desk.old sticks.now image.old input.old answer.old }
{
    tick_by(desk, sticks, image, input, answer, |image, input, answer| {
        route::route_tick(image, input, route, answer)
    })
}
