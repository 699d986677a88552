// The structs of a row, each in the Rust's order. Those that an image holds go by way of one, so that their words stand in one order everywhere: a row's words
// are laid over a blank image where the struct has its place, and the image is read; or the struct is written into a blank image, and its words are taken.
ghost use Rattle.std.specs.Prelude.{◌+◌, ◌≤◌};

use image::{GAINS, GOVERNOR, IMAGE_BYTES, LPF, RATE, SEGMENT, SET, put_state, state_at};
use joint_tick::State;
use relay_adrc::{AdrcAxis, AdrcGains, AdrcRate, Biquad, CommandFilter, CommandFilter3, GyroLpf};
use relay_geo::{GeoGains, Mat3, Quat, RecoverableSet, SimplexShield};
use relay_math::BodyRate;
use relay_traj::{Quintic, RefGovernor, Segment3};
use words::{float_at, put_float, put_three, put_vec, vec_at};

// A routine's words, given or answered: 36, more than any takes or gives, zeros after them.
pub(crate) type Row = [u8; 144];

// ---- what an image holds

// The state of a blank image with n words of a row, from number `from` on, laid over its words from number k on.
fn laid(i: &Row, from: usize, n: usize, k: usize) -> State
    requires { (from + n ≤ 36) × (k + n ≤ 99) }
{
    let mut image = [0u8; IMAGE_BYTES];
    image[4 * k..4 * k + 4 * n].copy_from_slice(&i[4 * from..4 * from + 4 * n]);
    state_at(&image)
}

// The n words from number k on of a blank state's image, with one part of the state set.
fn put_part<F: FnOnce(&mut State)>(o: &mut Row, n: usize, k: usize, set: F)
    requires words { (n ≤ 36) × (k + n ≤ 99) }
    requires part { F.IsAlwaysCallable set }
{
    let mut state = state_at(&[0u8; IMAGE_BYTES]);
    set(&mut state);
    let mut image = [0u8; IMAGE_BYTES];
    put_state(&mut image, state.fixed, state.moving);
    o[..4 * n].copy_from_slice(&image[4 * k..4 * k + 4 * n]);
}

pub(crate) fn gains_at(i: &Row) -> GeoGains {
    laid(i, 0, 9, GAINS).fixed.gains
}

pub(crate) fn set_at(i: &Row) -> RecoverableSet {
    laid(i, 0, 3, SET).fixed.set
}

pub(crate) fn governor_at(i: &Row) -> RefGovernor {
    laid(i, 0, 4, GOVERNOR).moving.governor
}

pub(crate) fn quintic_at(i: &Row) -> Quintic {
    laid(i, 0, 7, SEGMENT).fixed.segment.0
}

pub(crate) fn segment_at(i: &Row) -> Segment3 {
    laid(i, 0, 21, SEGMENT).fixed.segment
}

pub(crate) fn adrc_gains_at(i: &Row, from: usize) -> AdrcGains
    requires { from + 4 ≤ 36 }
{
    laid(i, from, 4, RATE + 5).moving.rate.roll.g
}

pub(crate) fn axis_at(i: &Row) -> AdrcAxis {
    laid(i, 0, 9, RATE).moving.rate.roll
}

pub(crate) fn rate_at(i: &Row) -> AdrcRate {
    laid(i, 0, 27, RATE).moving.rate
}

pub(crate) fn biquad_at(i: &Row) -> Biquad {
    laid(i, 0, 9, LPF).moving.lpf.roll
}

pub(crate) fn lpf_at(i: &Row) -> GyroLpf {
    laid(i, 0, 27, LPF).moving.lpf
}

pub(crate) fn put_gains(o: &mut Row, x: GeoGains) {
    put_part(o, 9, GAINS, |s| s.fixed.gains = x);
}

pub(crate) fn put_set(o: &mut Row, x: RecoverableSet) {
    put_part(o, 3, SET, |s| s.fixed.set = x);
}

pub(crate) fn put_governor(o: &mut Row, x: RefGovernor) {
    put_part(o, 4, GOVERNOR, |s| s.moving.governor = x);
}

pub(crate) fn put_quintic(o: &mut Row, x: Quintic) {
    put_part(o, 7, SEGMENT, |s| s.fixed.segment.0 = x);
}

pub(crate) fn put_segment(o: &mut Row, x: Segment3) {
    put_part(o, 21, SEGMENT, |s| s.fixed.segment = x);
}

pub(crate) fn put_adrc_gains(o: &mut Row, x: AdrcGains) {
    put_part(o, 4, RATE + 5, |s| s.moving.rate.roll.g = x);
}

pub(crate) fn put_axis(o: &mut Row, x: AdrcAxis) {
    put_part(o, 9, RATE, |s| s.moving.rate.roll = x);
}

pub(crate) fn put_rate(o: &mut Row, x: AdrcRate) {
    put_part(o, 27, RATE, |s| s.moving.rate = x);
}

pub(crate) fn put_biquad(o: &mut Row, x: Biquad) {
    put_part(o, 9, LPF, |s| s.moving.lpf.roll = x);
}

pub(crate) fn put_lpf(o: &mut Row, x: GyroLpf) {
    put_part(o, 27, LPF, |s| s.moving.lpf = x);
}

// ---- what it has no place for, from word k on

pub(crate) fn quat_at(i: &Row, k: usize) -> Quat
    requires { k + 4 ≤ 36 }
{
    Quat(
        float_at(i, k),
        float_at(i, k + 1),
        float_at(i, k + 2),
        float_at(i, k + 3),
    )
}

pub(crate) fn mat_at(i: &Row, k: usize) -> Mat3
    requires { k + 9 ≤ 36 }
{
    Mat3(vec_at(i, k), vec_at(i, k + 3), vec_at(i, k + 6))
}

pub(crate) fn body_rate_at(i: &Row, k: usize) -> BodyRate
    requires { k + 3 ≤ 36 }
{
    BodyRate(vec_at(i, k))
}

pub(crate) fn shield_at(i: &Row) -> SimplexShield {
    SimplexShield {
        set: set_at(i),
        engaged: float_at(i, 3) != 0.0,
        enter: float_at(i, 4),
        exit: float_at(i, 5),
    }
}

pub(crate) fn filter_at(i: &Row, k: usize) -> CommandFilter
    requires { k + 5 ≤ 36 }
{
    CommandFilter {
        omega_n: float_at(i, k),
        max_mag: float_at(i, k + 1),
        max_rate: float_at(i, k + 2),
        y: float_at(i, k + 3),
        yd: float_at(i, k + 4),
    }
}

pub(crate) fn filter3_at(i: &Row) -> CommandFilter3 {
    CommandFilter3 {
        roll: filter_at(i, 0),
        pitch: filter_at(i, 5),
        yaw: filter_at(i, 10),
    }
}

pub(crate) fn put_mat(o: &mut Row, k: usize, m: Mat3)
    requires { k + 9 ≤ 36 }
{
    put_vec(o, k, m.0);
    put_vec(o, k + 3, m.1);
    put_vec(o, k + 6, m.2);
}

// A yes is 1.0, a no 0.0.
pub(crate) fn put_yes(o: &mut Row, k: usize, yes: bool)
    requires { k + 1 ≤ 36 }
{
    put_float(o, k, f32::from(yes));
}

pub(crate) fn put_shield(o: &mut Row, s: SimplexShield) {
    put_set(o, s.set);
    put_yes(o, 3, s.engaged);
    put_float(o, 4, s.enter);
    put_float(o, 5, s.exit);
}

pub(crate) fn put_filter(o: &mut Row, k: usize, f: CommandFilter)
    requires { k + 5 ≤ 36 }
{
    put_three(o, k, f.omega_n, f.max_mag, f.max_rate);
    put_float(o, k + 3, f.y);
    put_float(o, k + 4, f.yd);
}

pub(crate) fn put_filter3(o: &mut Row, f: CommandFilter3) {
    put_filter(o, 0, f.roll);
    put_filter(o, 5, f.pitch);
    put_filter(o, 10, f.yaw);
}
