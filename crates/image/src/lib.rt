// The state in bytes: the image, what set-up and a tick are given, what a tick answers (added by document 01).
#![tactic(auto)]

mod inputs; // inputs.rt: what set-up and a tick are given, and what a tick answers
mod image; // image.rt: the state image
mod layout; // layout.rt: where each number stands
mod parts; // parts.rt: the parts of the images and inputs

pub use image::{fixed_at, moving_at, put_next_state, put_state, state_at};
pub use inputs::{input_at, put_answer, setup_at};
pub use layout::{
    AGILE, ANSWER_BYTES, COMMAND, COUNT, DT, ENGAGED, FLAG, GAINS, GOVERNOR, IMAGE_BYTES,
    IMAGE_WORDS, INPUT_BYTES, INPUT_WORDS, LEG_BYTES, LEG_WORDS, LPF, MARGIN, PEAKS, PROFILE, RATE,
    SEGMENT, SET, SETUP_BYTES, SETUP_FC, SETUP_FS, SETUP_PROFILE, YAW, YAW_RATE,
};
pub use parts::leg_at;
