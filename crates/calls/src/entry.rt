// Set-up, tick and exchange on lent bytes. Nothing is asked of the caller; a refused call changes no byte of any buffer.
ghost use Rattle.std.specs.Prelude.{◌≡◌, length};
ghost use Rattle.joint_tick.specs.SetUp.{exchange};
ghost use Rattle.image.specs.{Layout.{image_bytes, leg_bytes}, Parts.{leg_at}, Image.{state_at, image_of}};
ghost use Rattle.outcome.specs.Outcomes.{left, lent};
ghost use Rattle.lent_tick.specs.Tick.{tick_refusal};
ghost use Rattle.calls.specs.Entry.{set_up_call, exchange_call, tick_call};

use super::unread::unread_unbroken;
use image::{
    IMAGE_BYTES, LEG_BYTES, SETUP_BYTES, SETUP_FC, SETUP_FS, SETUP_PROFILE, leg_at, put_state,
    setup_at, state_at,
};
use joint_tick::{is_profile, reference_at};
use lent_tick::{right_lengths, tick_toward};
use outcome::{Outcome, Refusal};
use relay_adrc::passes_through;
use words::{float_at, word_at};

// What a tick would be refused for: by the lengths and the image alone.
pub fn tick_refusal(image: &[u8], input_len: usize, answer_len: usize) -> Outcome
    ensures { result ≡ tick_refusal image.now input_len answer_len }
{
    right_lengths(image.len(), input_len, answer_len)?;
    if unread_unbroken(image) {
        return Ok(());
    }
    Err(Refusal::BrokenImage)
}

// A fresh image from 51 words. What the image held before is not read. A cut-off that would leave the gyro unfiltered is refused (request Twelve); an
// image that was set up so before goes on, for no other call asks.
#[tactic(auto, unfolding(crate::specs::Entry::set_up_call, crate::specs::Entry::set_up_refusal))]
pub fn setup(image: &mut [u8], input: &[u8]) -> Outcome
    ensures { left result image.new ≡ set_up_call image.old input.now }
{
    if image.len() != IMAGE_BYTES {
        return Err(Refusal::ImageLength);
    }
    if input.len() != SETUP_BYTES {
        return Err(Refusal::InputLength);
    }
    if !is_profile(word_at(input, SETUP_PROFILE)) {
        return Err(Refusal::BadProfile);
    }
    if passes_through(float_at(input, SETUP_FC), float_at(input, SETUP_FS)) {
        return Err(Refusal::PassThrough);
    }
    let state = joint_tick::set_up(setup_at(input));
    put_state(image, state.fixed, state.moving);
    Ok(())
}

// By itself, since the compiler clears room for a state first: an exchange that is refused would wait for it.
#[inline(never)]
fn put_exchanged(image: &mut [u8], segment: &[u8])
    requires { (length image.old ≡ image_bytes) × (length segment.now ≡ leg_bytes) }
    ensures { image.new ≡ image_of (exchange (state_at image.old) (leg_at segment.now 0)) }
{
    let state = joint_tick::exchange(state_at(image), leg_at(segment, 0));
    put_state(image, state.fixed, state.moving);
}

// Another segment in flight, from a leg's 19 words (request Seven). What else the image holds goes on, so a broken one is refused and not repaired.
#[tactic(auto, unfolding(crate::specs::Entry::exchange_call, crate::specs::Entry::exchange_refusal))]
pub fn exchange(image: &mut [u8], segment: &[u8]) -> Outcome
    ensures { left result image.new ≡ exchange_call image.old segment.now }
{
    if image.len() != IMAGE_BYTES {
        return Err(Refusal::ImageLength);
    }
    if segment.len() != LEG_BYTES {
        return Err(Refusal::InputLength);
    }
    if !unread_unbroken(image) {
        return Err(Refusal::BrokenImage);
    }
    put_exchanged(image, segment);
    Ok(())
}

// Toward the segment that the image holds.
pub fn tick(image: &mut [u8], input: &[u8], answer: &mut [u8]) -> Outcome
    ensures { left result (lent image.new answer.new) ≡ tick_call image.old input.now answer.old }
{
    tick_toward(image, input, answer, |segment, time| {
        Ok(reference_at(segment, time))
    })
}
