// The state image. Both directions are over the whole of it: what `put_state` leaves is the state's alone, and no byte of what stood there before.
ghost use Rattle.std.specs.Prelude.{◌≡◌, length, take};
ghost use Rattle.words.specs.Words.{Put};
ghost use Rattle.words.specs.Inner.{Plain};
ghost use Rattle.image.specs.Layout.{SET as set_word, PEAKS as peaks_word, image_bytes};
ghost use Rattle.image.specs.Image.{fixed_at, moving_at, state_at, words_of_shield, words_of_state, image_of};
ghost use Rattle.image.specs.Inner.{OwnWords, Unmoved};

use super::layout::{
    AXIS_WORDS, BIQUAD_WORDS, COUNT, ENGAGED, ENTER, EXIT, GAINS, GOVERNOR, IMAGE_WORDS, LPF,
    PEAKS, PROFILE, RATE, SEGMENT, SET,
};
use super::parts::{
    gains_at, governor_at, lpf_at, profile_at, put_axis_moved, put_biquad_moved, put_gains,
    put_governor, put_lpf, put_profile, put_rate, put_segment, put_set, rate_at, segment_at,
    set_at,
};
use joint_tick::{Fixed, Moving, Profile, State};
use relay_geo::RecoverableSet;
use words::{Words, make_canonical, put_flag, put_float, put_vec, put_word};

// The two parts of the state, each read by itself: whoever needs one reads no other.
#[tactic(auto, unfolding(crate::specs::Image::fixed_at))]
pub fn fixed_at(image: &Words) -> Fixed
    requires { length image.now.bytes.now ≡ image_bytes }
    ensures { result ≡ fixed_at image.now.bytes.now }
{
    Fixed {
        gains: gains_at(image, GAINS),
        set: set_at(image, SET),
        enter: image.float(ENTER),
        exit: image.float(EXIT),
        segment: segment_at(image, SEGMENT),
        profile: profile_at(image, PROFILE),
    }
}

// Into each caller, with the readers of three axes: what a tick reads need not go by way of the stack.
#[inline(always)]
#[tactic(auto, unfolding(crate::specs::Image::moving_at))]
pub fn moving_at(image: &Words) -> Moving
    requires { length image.now.bytes.now ≡ image_bytes }
    ensures { result ≡ moving_at image.now.bytes.now }
{
    Moving {
        engaged: image.word(ENGAGED) == 1,
        governor: governor_at(image, GOVERNOR),
        rate: rate_at(image, RATE),
        lpf: lpf_at(image, LPF),
    }
}

// Both at once, for an exchange.
pub fn state_at(image: &[u8]) -> State
    requires { length image.now ≡ image_bytes }
    ensures { result ≡ state_at image.now }
{
    let words = Words::new(image);
    State {
        fixed: fixed_at(&words),
        moving: moving_at(&words),
    }
}

fn put_shield(image: &mut [u8], set: RecoverableSet, enter: f32, exit: f32, engaged: bool)
    requires { length image.old ≡ image_bytes }
    ensures { Put image.old set_word (words_of_shield set enter exit engaged) image.new }
{
    put_set(image, SET, set);
    put_float(image, ENTER, enter);
    put_float(image, EXIT, exit);
    put_flag(image, ENGAGED, engaged);
}

// All but the peaks.
fn put_before_peaks(image: &mut [u8], fixed: Fixed, moving: Moving)
    requires { length image.old ≡ image_bytes }
    ensures { Put image.old 0 (take peaks_word (words_of_state record { fixed = fixed; moving = moving })) image.new }
{
    put_word(image, COUNT, IMAGE_WORDS as u32);
    put_gains(image, GAINS, fixed.gains);
    put_shield(image, fixed.set, fixed.enter, fixed.exit, moving.engaged);
    put_governor(image, GOVERNOR, moving.governor);
    put_segment(image, SEGMENT, fixed.segment);
    put_rate(image, RATE, moving.rate);
    put_lpf(image, LPF, moving.lpf);
    put_profile(image, PROFILE, fixed.profile);
}

// The peaks are worked out here, of the segment that is written: they are no part of the state, so that the two cannot come apart. The state's two parts are
// taken apart: a whole state that is passed on is laid out in memory first, and on x86-64 an exchange then calls `memset` for it.
pub fn put_state(image: &mut [u8], fixed: Fixed, moving: Moving)
    requires { length image.old ≡ image_bytes }
    ensures { image.new ≡ image_of record { fixed = fixed; moving = moving } }
{
    let peaks = fixed.segment.peak_abs_jerk();
    put_before_peaks(image, fixed, moving);
    put_vec(image, PEAKS, peaks);
}

// Only what a tick moves, 29 words of 99, over an image whose words are its own state's: what `all_plain` of `words` found makes that enough.
fn put_moved(image: &mut [u8], moving: Moving)
    requires { (length image.old ≡ image_bytes) × (image.old ≡ image_of (state_at image.old)) × Unmoved moving (moving_at image.old) }
    ensures { image.new ≡ image_of record { fixed = fixed_at image.old; moving = moving } }
{
    let rate = moving.rate;
    let lpf = moving.lpf;
    put_flag(image, ENGAGED, moving.engaged);
    put_float(image, GOVERNOR, moving.governor.s);
    put_axis_moved(image, RATE, rate.roll);
    put_axis_moved(image, RATE + AXIS_WORDS, rate.pitch);
    put_axis_moved(image, RATE + AXIS_WORDS + AXIS_WORDS, rate.yaw);
    put_biquad_moved(image, LPF, lpf.roll);
    put_biquad_moved(image, LPF + BIQUAD_WORDS, lpf.pitch);
    put_biquad_moved(image, LPF + BIQUAD_WORDS + BIQUAD_WORDS, lpf.yaw);
}

// The state that a tick leaves, over the image that it began from, which is unbroken. Where `plain` says that no word is a NaN's pattern, what a
// tick leaves as it stood is not written again.
pub fn put_next_state(image: &mut [u8], plain: bool, moving: Moving)
    requires fact_1 { length image.old ≡ image_bytes }
    requires fact_2 { Plain plain image.old }
    requires fact_3 { OwnWords image.old × Unmoved moving (moving_at image.old) }
    ensures { image.new ≡ image_of record { fixed = fixed_at image.old; moving = moving } }
{
    make_canonical(image, IMAGE_WORDS, plain);
    put_moved(image, moving);
}
