// The parts of the images and inputs, each from word k on. What stands on three axes is read and written by one function, three times.
ghost use Rattle.std.specs.Prelude.{◌≡◌, ◌∷◌, [], ◌+◌, ◌*◌, ◌≤◌, length};
ghost use Rattle.words.specs.Words.{words_of, Put};
ghost use Rattle.joint_tick.specs.Profile.{profile_word};
ghost use Rattle.image.specs.Parts.{quat_at, gains_at, set_at, governor_at, quintic_at, segment_at, adrc_gains_at, axis_at, rate_at, biquad_at, lpf_at, leg_at, profile_at, floats_of_gains, floats_of_set, floats_of_governor, floats_of_quintic, floats_of_segment, floats_of_adrc_gains, floats_of_axis, floats_of_rate, floats_of_biquad, floats_of_lpf};
ghost use Rattle.image.specs.Inner.{moved_of_axis, moved_of_biquad};

use super::layout::{AXIS_WORDS, BIQUAD_WORDS, QUINTIC_WORDS, T_END, VEC_WORDS};
use joint_tick::{Leg, Profile, profile_of, profile_word};
use relay_adrc::{AdrcAxis, AdrcGains, AdrcRate, Biquad, GyroLpf};
use relay_geo::{GeoGains, Quat, RecoverableSet};
use relay_traj::{Quintic, RefGovernor, Segment3};
use words::{Words, put_float, put_three, put_vec, put_word};

#[tactic(auto, unfolding(crate::specs::Parts::quat_at))]
pub(crate) fn quat_at(words: &Words, k: usize) -> Quat
    requires { 4 * k + 16 ≤ length words.now.bytes.now }
    ensures { result ≡ quat_at words.now.bytes.now k }
{
    Quat(
        words.float(k),
        words.float(k + 1),
        words.float(k + 2),
        words.float(k + 3),
    )
}

#[tactic(auto, unfolding(crate::specs::Parts::gains_at))]
pub(crate) fn gains_at(words: &Words, k: usize) -> GeoGains
    requires { 4 * k + 36 ≤ length words.now.bytes.now }
    ensures { result ≡ gains_at words.now.bytes.now k }
{
    GeoGains {
        k_r: words.vec(k),
        k_omega: words.vec(k + VEC_WORDS),
        j: words.vec(k + VEC_WORDS + VEC_WORDS),
    }
}

#[tactic(auto, unfolding(crate::specs::Parts::set_at))]
pub(crate) fn set_at(words: &Words, k: usize) -> RecoverableSet
    requires { 4 * k + 12 ≤ length words.now.bytes.now }
    ensures { result ≡ set_at words.now.bytes.now k }
{
    RecoverableSet {
        k_r: words.float(k),
        lambda_j: words.float(k + 1),
        psi_max: words.float(k + 2),
    }
}

#[tactic(auto, unfolding(crate::specs::Parts::governor_at))]
pub(crate) fn governor_at(words: &Words, k: usize) -> RefGovernor
    requires { 4 * k + 16 ≤ length words.now.bytes.now }
    ensures { result ≡ governor_at words.now.bytes.now k }
{
    RefGovernor {
        s: words.float(k),
        err_lo: words.float(k + 1),
        err_hi: words.float(k + 2),
        g_min: words.float(k + 3),
    }
}

#[tactic(auto, unfolding(crate::specs::Parts::quintic_at))]
pub(crate) fn quintic_at(words: &Words, k: usize) -> Quintic
    requires { 4 * k + 28 ≤ length words.now.bytes.now }
    ensures { result ≡ quintic_at words.now.bytes.now k }
{
    Quintic {
        c5: words.float(k),
        c4: words.float(k + 1),
        c3: words.float(k + 2),
        c2: words.float(k + 3),
        c1: words.float(k + 4),
        c0: words.float(k + 5),
        t_end: words.float(k + T_END),
    }
}

#[tactic(auto, unfolding(crate::specs::Parts::segment_at))]
pub(crate) fn segment_at(words: &Words, k: usize) -> Segment3
    requires { 4 * k + 84 ≤ length words.now.bytes.now }
    ensures { result ≡ segment_at words.now.bytes.now k }
{
    Segment3(
        quintic_at(words, k),
        quintic_at(words, k + QUINTIC_WORDS),
        quintic_at(words, k + QUINTIC_WORDS + QUINTIC_WORDS),
    )
}

#[tactic(auto, unfolding(crate::specs::Parts::adrc_gains_at))]
pub(crate) fn adrc_gains_at(words: &Words, k: usize) -> AdrcGains
    requires { 4 * k + 16 ≤ length words.now.bytes.now }
    ensures { result ≡ adrc_gains_at words.now.bytes.now k }
{
    AdrcGains {
        omega_o: words.float(k),
        omega_c: words.float(k + 1),
        b0: words.float(k + 2),
        tau: words.float(k + 3),
    }
}

#[tactic(auto, unfolding(crate::specs::Parts::axis_at))]
pub(crate) fn axis_at(words: &Words, k: usize) -> AdrcAxis
    requires { 4 * k + 36 ≤ length words.now.bytes.now }
    ensures { result ≡ axis_at words.now.bytes.now k }
{
    AdrcAxis {
        z1: words.float(k),
        z2: words.float(k + 1),
        u_prev: words.float(k + 2),
        u_act: words.float(k + 3),
        u_delivered_frac: words.float(k + 4),
        g: adrc_gains_at(words, k + 5),
    }
}

#[inline(always)]
#[tactic(auto, unfolding(crate::specs::Parts::rate_at))]
pub(crate) fn rate_at(words: &Words, k: usize) -> AdrcRate
    requires { 4 * k + 108 ≤ length words.now.bytes.now }
    ensures { result ≡ rate_at words.now.bytes.now k }
{
    AdrcRate {
        roll: axis_at(words, k),
        pitch: axis_at(words, k + AXIS_WORDS),
        yaw: axis_at(words, k + AXIS_WORDS + AXIS_WORDS),
    }
}

#[tactic(auto, unfolding(crate::specs::Parts::biquad_at))]
pub(crate) fn biquad_at(words: &Words, k: usize) -> Biquad
    requires { 4 * k + 36 ≤ length words.now.bytes.now }
    ensures { result ≡ biquad_at words.now.bytes.now k }
{
    Biquad {
        b0: words.float(k),
        b1: words.float(k + 1),
        b2: words.float(k + 2),
        a1: words.float(k + 3),
        a2: words.float(k + 4),
        x1: words.float(k + 5),
        x2: words.float(k + 6),
        y1: words.float(k + 7),
        y2: words.float(k + 8),
    }
}

#[inline(always)]
#[tactic(auto, unfolding(crate::specs::Parts::lpf_at))]
pub(crate) fn lpf_at(words: &Words, k: usize) -> GyroLpf
    requires { 4 * k + 108 ≤ length words.now.bytes.now }
    ensures { result ≡ lpf_at words.now.bytes.now k }
{
    GyroLpf {
        roll: biquad_at(words, k),
        pitch: biquad_at(words, k + BIQUAD_WORDS),
        yaw: biquad_at(words, k + BIQUAD_WORDS + BIQUAD_WORDS),
    }
}

// A leg as it is given, before mending. Every reader of legs goes through this one.
#[tactic(auto, unfolding(crate::specs::Parts::leg_at))]
pub fn leg_at(bytes: &[u8], k: usize) -> Leg
    requires { 4 * k + 76 ≤ length bytes.now }
    ensures { result ≡ leg_at bytes.now k }
{
    let words = Words::new(bytes);
    Leg {
        p0: words.vec(k),
        v0: words.vec(k + 3),
        a0: words.vec(k + 6),
        pf: words.vec(k + 9),
        vf: words.vec(k + 12),
        af: words.vec(k + 15),
        t: words.float(k + 18),
    }
}

#[tactic(auto, unfolding(crate::specs::Parts::profile_at))]
pub(crate) fn profile_at(words: &Words, k: usize) -> Profile
    requires { 4 * k + 4 ≤ length words.now.bytes.now }
    ensures { result ≡ profile_at words.now.bytes.now k }
{
    profile_of(words.word(k))
}

pub(crate) fn put_gains(bytes: &mut [u8], k: usize, g: GeoGains)
    requires { 4 * k + 36 ≤ length bytes.old }
    ensures { Put bytes.old k (words_of (floats_of_gains g)) bytes.new }
{
    put_vec(bytes, k, g.k_r);
    put_vec(bytes, k + VEC_WORDS, g.k_omega);
    put_vec(bytes, k + VEC_WORDS + VEC_WORDS, g.j);
}

pub(crate) fn put_set(bytes: &mut [u8], k: usize, s: RecoverableSet)
    requires { 4 * k + 12 ≤ length bytes.old }
    ensures { Put bytes.old k (words_of (floats_of_set s)) bytes.new }
{
    put_three(bytes, k, s.k_r, s.lambda_j, s.psi_max);
}

pub(crate) fn put_governor(bytes: &mut [u8], k: usize, g: RefGovernor)
    requires { 4 * k + 16 ≤ length bytes.old }
    ensures { Put bytes.old k (words_of (floats_of_governor g)) bytes.new }
{
    put_three(bytes, k, g.s, g.err_lo, g.err_hi);
    put_float(bytes, k + 3, g.g_min);
}

pub(crate) fn put_quintic(bytes: &mut [u8], k: usize, q: Quintic)
    requires { 4 * k + 28 ≤ length bytes.old }
    ensures { Put bytes.old k (words_of (floats_of_quintic q)) bytes.new }
{
    put_three(bytes, k, q.c5, q.c4, q.c3);
    put_three(bytes, k + 3, q.c2, q.c1, q.c0);
    put_float(bytes, k + T_END, q.t_end);
}

pub(crate) fn put_segment(bytes: &mut [u8], k: usize, s: Segment3)
    requires { 4 * k + 84 ≤ length bytes.old }
    ensures { Put bytes.old k (words_of (floats_of_segment s)) bytes.new }
{
    put_quintic(bytes, k, s.0);
    put_quintic(bytes, k + QUINTIC_WORDS, s.1);
    put_quintic(bytes, k + QUINTIC_WORDS + QUINTIC_WORDS, s.2);
}

pub(crate) fn put_adrc_gains(bytes: &mut [u8], k: usize, g: AdrcGains)
    requires { 4 * k + 16 ≤ length bytes.old }
    ensures { Put bytes.old k (words_of (floats_of_adrc_gains g)) bytes.new }
{
    put_three(bytes, k, g.omega_o, g.omega_c, g.b0);
    put_float(bytes, k + 3, g.tau);
}

// What a tick moves of an axis: all but its gains.
pub(crate) fn put_axis_moved(bytes: &mut [u8], k: usize, a: AdrcAxis)
    requires { 4 * k + 20 ≤ length bytes.old }
    ensures { Put bytes.old k (words_of (moved_of_axis a)) bytes.new }
{
    put_three(bytes, k, a.z1, a.z2, a.u_prev);
    put_float(bytes, k + 3, a.u_act);
    put_float(bytes, k + 4, a.u_delivered_frac);
}

pub(crate) fn put_axis(bytes: &mut [u8], k: usize, a: AdrcAxis)
    requires { 4 * k + 36 ≤ length bytes.old }
    ensures { Put bytes.old k (words_of (floats_of_axis a)) bytes.new }
{
    put_axis_moved(bytes, k, a);
    put_adrc_gains(bytes, k + 5, a.g);
}

pub(crate) fn put_rate(bytes: &mut [u8], k: usize, r: AdrcRate)
    requires { 4 * k + 108 ≤ length bytes.old }
    ensures { Put bytes.old k (words_of (floats_of_rate r)) bytes.new }
{
    put_axis(bytes, k, r.roll);
    put_axis(bytes, k + AXIS_WORDS, r.pitch);
    put_axis(bytes, k + AXIS_WORDS + AXIS_WORDS, r.yaw);
}

pub(crate) fn put_biquad(bytes: &mut [u8], k: usize, f: Biquad)
    requires { 4 * k + 36 ≤ length bytes.old }
    ensures { Put bytes.old k (words_of (floats_of_biquad f)) bytes.new }
{
    put_three(bytes, k, f.b0, f.b1, f.b2);
    put_three(bytes, k + 3, f.a1, f.a2, f.x1);
    put_three(bytes, k + 6, f.x2, f.y1, f.y2);
}

// What a tick moves of a biquad: all but its coefficients.
pub(crate) fn put_biquad_moved(bytes: &mut [u8], k: usize, f: Biquad)
    requires { 4 * k + 36 ≤ length bytes.old }
    ensures { Put bytes.old (k + 5) (words_of (moved_of_biquad f)) bytes.new }
{
    put_float(bytes, k + 5, f.x1);
    put_three(bytes, k + 6, f.x2, f.y1, f.y2);
}

pub(crate) fn put_lpf(bytes: &mut [u8], k: usize, l: GyroLpf)
    requires { 4 * k + 108 ≤ length bytes.old }
    ensures { Put bytes.old k (words_of (floats_of_lpf l)) bytes.new }
{
    put_biquad(bytes, k, l.roll);
    put_biquad(bytes, k + BIQUAD_WORDS, l.pitch);
    put_biquad(bytes, k + BIQUAD_WORDS + BIQUAD_WORDS, l.yaw);
}

pub(crate) fn put_profile(bytes: &mut [u8], k: usize, profile: Profile)
    requires { 4 * k + 4 ≤ length bytes.old }
    ensures { Put bytes.old k (profile_word profile ∷ []) bytes.new }
{
    put_word(bytes, k, profile_word(profile));
}
