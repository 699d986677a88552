// A tick on lent bytes, wherever its reference comes from. A plain tick and a route tick differ by that, and by nothing else.
ghost use Rattle.std.specs.Prelude.{◌≡◌};
ghost use Rattle.outcome.specs.Outcomes.{left, lent, first_of};
ghost use Rattle.image.specs.Image.{fixed_at};
ghost use Rattle.lent_tick.specs.Tick.{lengths_table, time_at};
ghost use Rattle.lent_tick.specs.Inner.{Toward};

use crate::ends::{put_state_and_answer, read_and_prepare};
use crate::row_four::unbroken;
use image::{ANSWER_BYTES, IMAGE_BYTES, IMAGE_WORDS, INPUT_BYTES, INPUT_WORDS, fixed_at, input_at};
use joint_tick::{Reference, guide_pick_follow};
use outcome::{Outcome, Refusal};
use relay_traj::Segment3;
use words::Words;

// Rows 1 to 3 of document 01's refusals.
pub fn right_lengths(image_len: usize, input_len: usize, answer_len: usize) -> Outcome
    ensures { result ≡ first_of (lengths_table image_len input_len answer_len) }
{
    if image_len != IMAGE_BYTES {
        return Err(Refusal::ImageLength);
    }
    if input_len != INPUT_BYTES {
        return Err(Refusal::InputLength);
    }
    if answer_len != ANSWER_BYTES {
        return Err(Refusal::AnswerLength);
    }
    Ok(())
}

// Row 4 is judged after the arithmetic, which needs nothing of it and mostly waits for its own numbers: that saves time (docs/SPEED.md). Nothing is written
// before. An image with no NaN in it is read and written with fewer tests: `plain` says so, from its scan to what is left.
pub fn tick_toward<F: FnOnce(Segment3, f32) -> Result<Reference, Refusal>>(
    image: &mut [u8],
    input: &[u8],
    answer: &mut [u8],
    source: F,
) -> Outcome
    requires { F.IsAlwaysCallable source }
    ensures { Toward (λ wanted. F.post source (fixed_at image.old).segment (time_at image.old input.now) wanted) image.old input.now answer.old (left result (lent image.new answer.new)) }
{
    right_lengths(image.len(), input.len(), answer.len())?;
    let seen = Words::scanned(&image[..], IMAGE_WORDS);
    let plain = seen.plain;
    let fixed = fixed_at(&seen);
    let given = input_at(&Words::scanned(input, INPUT_WORDS));
    let prepared = read_and_prepare(&seen, fixed.profile, given);
    match source(fixed.segment, prepared.time) {
        Ok(wanted) => {
            let done = guide_pick_follow(fixed, prepared, wanted, given);
            if !unbroken(seen.bytes, fixed.segment, fixed.enter, fixed.exit) {
                return Err(Refusal::BrokenImage);
            }
            put_state_and_answer(
                image,
                answer,
                plain,
                prepared.moving.governor,
                prepared.moving.lpf,
                done,
            );
            Ok(())
        }
        Err(refusal) => {
            if !unbroken(seen.bytes, fixed.segment, fixed.enter, fixed.exit) {
                return Err(Refusal::BrokenImage);
            }
            Err(refusal)
        }
    }
}
