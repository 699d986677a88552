// What an unbroken image is, by row 4 of document 01's refusals. specs/Unbroken.antt has the clauses in the row's order; here the words that are no floats
// come first.
ghost use Rattle.std.specs.Prelude.{◌≡◌, ◌&&◌, ◌||◌, ◌+◌, ◌*◌, ◌≤◌, eqb, length};
ghost use Rattle.std.specs.Float.Ieee.{lt, le};
ghost use Rattle.relay_math.specs.F32.{0·0, finite_above};
ghost use Rattle.words.specs.Words.{word, float, bits};
ghost use Rattle.relay_traj.specs.Quintic.{peak_abs_jerk};
ghost use Rattle.image.specs.Layout.{image_bytes, GOVERNOR as governor_word};
ghost use Rattle.image.specs.Image.{fixed_at};
ghost use Rattle.lent_tick.specs.Unbroken.{lasts, all_last, peaks_stand, unbroken};
ghost use Rattle.lent_tick.specs.Inner.{ReadOf};

use image::{COUNT, ENGAGED, GOVERNOR, IMAGE_WORDS, PEAKS, PROFILE};
use joint_tick::is_profile;
use relay_math::{finite_above, is_finite};
use relay_traj::{Quintic, Segment3};
use words::{bits_of, float_at, word_at};

fn lasts(t_end: f32) -> bool
    ensures { result ≡ lasts t_end }
{
    is_finite(t_end) && t_end >= 1e-3
}

// By the t_end of each axis.
#[tactic(auto, unfolding(crate::specs::Unbroken::all_last))]
fn all_last(segment: Segment3) -> bool
    ensures { result ≡ all_last segment }
{
    lasts(segment.0.t_end) && lasts(segment.1.t_end) && lasts(segment.2.t_end)
}

// The floats that row 4 speaks of: the thresholds, the time and each t_end.
fn numbers_stand(image: &[u8], segment: Segment3, enter: f32, exit: f32) -> bool
    requires { length image.now ≡ image_bytes }
    ensures { result ≡ (finite_above 0·0 enter && lt enter exit && le 0·0 (float image.now governor_word) && all_last segment) }
{
    finite_above(0.0, enter)
        && exit > enter
        && float_at(image, GOVERNOR) >= 0.0
        && all_last(segment)
}

// The stored peak of one axis has the bits of the one worked out from its quintic.
fn peak_stands(image: &[u8], axis: Quintic, peak: usize) -> bool
    requires { 4 * peak + 4 ≤ length image.now }
    ensures { result ≡ eqb (word image.now peak) (bits (peak_abs_jerk axis)) }
{
    word_at(image, peak) == bits_of(axis.peak_abs_jerk())
}

#[tactic(auto, unfolding(crate::specs::Unbroken::peaks_stand, image::specs::Image::fixed_at, relay_traj::specs::Segment::peak_abs_jerk3))]
fn peaks_stand(image: &[u8], segment: Segment3) -> bool
    requires fact_1 { length image.now ≡ image_bytes }
    requires fact_2 { segment ≡ (fixed_at image.now).segment }
    ensures { result ≡ peaks_stand image.now }
{
    peak_stands(image, segment.0, PEAKS)
        && peak_stands(image, segment.1, PEAKS + 1)
        && peak_stands(image, segment.2, PEAKS + 2)
}

fn is_flag(word: u32) -> bool
    ensures { result ≡ (eqb word 0 || eqb word 1) }
{
    word == 0 || word == 1
}

// By what was read of the image already: a tick reads no word of the segment twice.
pub fn unbroken(image: &[u8], segment: Segment3, enter: f32, exit: f32) -> bool
    requires fact_1 { length image.now ≡ image_bytes }
    requires fact_2 { ReadOf segment enter exit (fixed_at image.now) }
    ensures { result ≡ unbroken image.now }
{
    let count = word_at(image, COUNT);
    let engaged = word_at(image, ENGAGED);
    count == IMAGE_WORDS as u32
        && is_profile(word_at(image, PROFILE))
        && peaks_stand(image, segment)
        && is_flag(engaged)
        && numbers_stand(image, segment, enter, exit)
}
