// What set-up and a tick are given, and what a tick answers.
ghost use Rattle.std.specs.Prelude.{◌≡◌, length};
ghost use Rattle.image.specs.Layout.{setup_bytes, input_bytes, answer_bytes};
ghost use Rattle.image.specs.Inputs.{setup_at, input_at, answer_of};

use super::layout::{
    ADRC_WORDS, AGILE, COMMAND, DT, FLAG, FRACTION, GYRO, QUAT, SETUP_ADRC, SETUP_BAND,
    SETUP_ENTER, SETUP_EXIT, SETUP_FC, SETUP_FS, SETUP_GAINS, SETUP_LEG, SETUP_PROFILE, SETUP_SET,
    TIME, TORQUE, TRACK_ERR, YAW, YAW_RATE,
};
use super::parts::{adrc_gains_at, gains_at, leg_at, profile_at, quat_at, set_at};
use joint_tick::{Answer, SetUp, TickInput};
use relay_math::BodyRate;
use words::{Words, put_flag, put_three, put_vec};

// Every bit pattern is taken: what is bad is mended later, by the constructors. (A word that is no profile's is refused before.)
#[tactic(auto, unfolding(crate::specs::Inputs::setup_at))]
pub fn setup_at(input: &[u8]) -> SetUp
    requires { length input.now ≡ setup_bytes }
    ensures { result ≡ setup_at input.now }
{
    let words = Words::new(input);
    SetUp {
        gains: gains_at(&words, SETUP_GAINS),
        set: set_at(&words, SETUP_SET),
        enter: words.float(SETUP_ENTER),
        exit: words.float(SETUP_EXIT),
        err_lo: words.float(SETUP_BAND),
        err_hi: words.float(SETUP_BAND + 1),
        g_min: words.float(SETUP_BAND + 2),
        leg: leg_at(input, SETUP_LEG),
        roll: adrc_gains_at(&words, SETUP_ADRC),
        pitch: adrc_gains_at(&words, SETUP_ADRC + ADRC_WORDS),
        yaw: adrc_gains_at(&words, SETUP_ADRC + ADRC_WORDS + ADRC_WORDS),
        fc: words.float(SETUP_FC),
        fs: words.float(SETUP_FS),
        profile: profile_at(&words, SETUP_PROFILE),
    }
}

#[tactic(auto, unfolding(crate::specs::Inputs::input_at))]
pub fn input_at(input: &Words) -> TickInput
    requires { length input.now.bytes.now ≡ input_bytes }
    ensures { result ≡ input_at input.now.bytes.now }
{
    TickInput {
        gyro: BodyRate(input.vec(GYRO)),
        quat: quat_at(input, QUAT),
        track_err: input.float(TRACK_ERR),
        yaw: input.float(YAW),
        yaw_rate: input.float(YAW_RATE),
        dt: input.float(DT),
        agile: BodyRate(input.vec(AGILE)),
        fraction: input.vec(FRACTION),
    }
}

pub fn put_answer(answer: &mut [u8], a: Answer)
    requires { length answer.old ≡ answer_bytes }
    ensures { answer.new ≡ answer_of a }
{
    put_vec(answer, TORQUE, a.torque.0);
    put_vec(answer, COMMAND, a.command.0);
    put_flag(answer, FLAG, a.fallback);
    put_three(answer, TIME, a.time, a.psi, a.margin);
}
