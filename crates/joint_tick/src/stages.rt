// The joint tick in stages, in document 01's order: prepare, take a reference, and then guide, pick and follow. (ADRC's tick is taken in its two
// halves, the observers' before the guidance.) A route's tick has another reference in place of `reference_at` and nothing else; what is guided to
// depends on R, R_d and the heading in `guide` alone. With a rotor lost (request Six) `guide` is another, and the third axis of ADRC stands still.
ghost use Rattle.std.specs.Prelude.{◌≡◌, cond};
ghost use Rattle.joint_tick.specs.Tick.{fraction_third, fractions, prepare, sample_time, sample_at3, reference_at, cleaned, with_feedforward, commanded, rate_error, rate_sq, psi_of, guide_whole, rate_toward_axis, psi_to_axis, tilt_rate_sq, guide_lost_rotor, guide, guide_pick_follow};
ghost use Rattle.joint_tick.specs.Inner.{observe_third, observe, act_third, follow_on, pick_on};

use crate::profile::Profile;
use crate::state::{Answer, Fixed, Moving, TickInput};
use relay_adrc::{AdrcAxis, AdrcRate, AxisTick, Observed, RateTick};
use relay_geo::{
    GeoAtt, GeoGains, Mat3, RecoverableSet, SimplexShield, attitude_on, dot, feedforward_on,
    quat_to_rotmat, sanitise3, thrust_axis_ned, thrust_of,
};
use relay_math::{BodyRate, Torque, Vec3};
use relay_traj::{Sample3, Segment3};

// What moves, with its fractions, filters and clock moved on, the filtered rate and the governor's time.
#[repr(C)]
#[derive(Clone, Copy)]
pub struct Prepared {
    pub moving: Moving,
    pub rate: BodyRate,
    pub time: f32,
}

// The acceleration and the jerk that the trajectory asks for.
#[repr(C)]
#[derive(Clone, Copy)]
pub struct Reference {
    pub acc: Vec3,
    pub jerk: Vec3,
}

// The two commands to choose from, the attitude error and the margin.
#[repr(C)]
#[derive(Clone, Copy)]
pub struct Guided {
    pub fallback: BodyRate,
    pub psi: f32,
    pub margin: f32,
    pub planner: BodyRate,
}

// What ADRC's observers see, axis by axis.
#[repr(C)]
#[derive(Clone, Copy)]
pub struct Observed3 {
    pub roll: Observed,
    pub pitch: Observed,
    pub yaw: Observed,
}

// What comes of a tick after it was prepared. All else stays as it was prepared.
#[repr(C)]
#[derive(Clone, Copy)]
pub struct Ticked {
    pub engaged: bool,
    pub rate: AdrcRate,
    pub answer: Answer,
}

// ---- prepare

fn fraction_third(profile: Profile, axis: AdrcAxis, fraction: f32) -> AdrcAxis
    ensures { result ≡ fraction_third profile axis fraction }
{
    match profile {
        Profile::Whole => axis.set_delivered_fraction(fraction),
        Profile::LostRotor => axis,
    }
}

fn set_fractions(profile: Profile, rate: AdrcRate, fraction: Vec3) -> AdrcRate
    ensures { result ≡ fractions profile rate fraction }
{
    AdrcRate {
        roll: rate.roll.set_delivered_fraction(fraction.0),
        pitch: rate.pitch.set_delivered_fraction(fraction.1),
        yaw: fraction_third(profile, rate.yaw, fraction.2),
    }
}

// The fractions belong to the torque of the tick before: they are set first, and this tick's torque waits for the next ones. dt goes to the governor as
// it is given, and later to ADRC: each has its own rule for a bad one.
pub fn prepare(profile: Profile, moving: Moving, input: TickInput) -> Prepared
    ensures { result ≡ prepare profile moving input }
{
    let rate = set_fractions(profile, moving.rate, input.fraction);
    let filtered = moving.lpf.filter(input.gyro);
    let advanced = moving.governor.advance(input.track_err, input.dt);
    Prepared {
        moving: Moving {
            governor: advanced.governor,
            rate,
            lpf: filtered.lpf,
            ..moving
        },
        rate: filtered.rate,
        time: advanced.time,
    }
}

// ---- sample

// `eval` takes a time that is not finite for 0; a clock that ran to +infinity is past the segment's end, so the tick asks for that.
fn sample_time(segment: Segment3, time: f32) -> f32
    ensures { result ≡ sample_time segment time }
{
    if time == f32::INFINITY {
        segment.duration()
    } else {
        time
    }
}

// Position and velocity too, for whoever asks where the craft should be. Axis by axis: with a second caller the compiler does not inline the segment's own `eval` into
// `reference_at`, and every tick works out a position and a velocity that nobody reads (114 instructions on x86-64).
pub fn sample_at(segment: Segment3, time: f32) -> Sample3
    ensures { result ≡ sample_at3 segment time }
{
    let t = sample_time(segment, time);
    let q0 = segment.0;
    let q1 = segment.1;
    let q2 = segment.2;
    let x = q0.eval(t);
    let y = q1.eval(t);
    let z = q2.eval(t);
    Sample3 {
        pos: Vec3(x.p, y.p, z.p),
        vel: Vec3(x.v, y.v, z.v),
        acc: Vec3(x.a, y.a, z.a),
        jerk: Vec3(x.j, y.j, z.j),
    }
}

pub fn reference_at(segment: Segment3, time: f32) -> Reference
    ensures { result ≡ reference_at segment time }
{
    let s = segment.eval(sample_time(segment, time));
    Reference {
        acc: s.acc,
        jerk: s.jerk,
    }
}

// ---- guide

// Each number that is not finite made +0.0.
fn clean(wanted: Reference) -> Reference
    ensures { result ≡ cleaned wanted }
{
    Reference {
        acc: sanitise3(wanted.acc),
        jerk: sanitise3(wanted.jerk),
    }
}

// The sum, and w itself where there is no feedforward: adding +0.0 would turn a -0.0.
fn plus(w: BodyRate, feedforward: Option<BodyRate>) -> BodyRate
    ensures { result ≡ with_feedforward w feedforward }
{
    let Some(f) = feedforward else {
        return w;
    };
    BodyRate(Vec3(w.0.0 + f.0.0, w.0.1 + f.0.1, w.0.2 + f.0.2))
}

// The commanded rate in the body's axes: R^T R_d times f, the product first. `qij` is entry (i, j) of the product, read where its numbers stand; each
// starts from 0.0, the sums over them don't.
fn commanded(r: Mat3, r_d: Mat3, f: Vec3) -> Vec3
    ensures { result ≡ commanded r r_d f }
{
    let q00 = 0.0 + r.0.0 * r_d.0.0 + r.1.0 * r_d.1.0 + r.2.0 * r_d.2.0;
    let q01 = 0.0 + r.0.0 * r_d.0.1 + r.1.0 * r_d.1.1 + r.2.0 * r_d.2.1;
    let q02 = 0.0 + r.0.0 * r_d.0.2 + r.1.0 * r_d.1.2 + r.2.0 * r_d.2.2;
    let q10 = 0.0 + r.0.1 * r_d.0.0 + r.1.1 * r_d.1.0 + r.2.1 * r_d.2.0;
    let q11 = 0.0 + r.0.1 * r_d.0.1 + r.1.1 * r_d.1.1 + r.2.1 * r_d.2.1;
    let q12 = 0.0 + r.0.1 * r_d.0.2 + r.1.1 * r_d.1.2 + r.2.1 * r_d.2.2;
    let q20 = 0.0 + r.0.2 * r_d.0.0 + r.1.2 * r_d.1.0 + r.2.2 * r_d.2.0;
    let q21 = 0.0 + r.0.2 * r_d.0.1 + r.1.2 * r_d.1.1 + r.2.2 * r_d.2.1;
    let q22 = 0.0 + r.0.2 * r_d.0.2 + r.1.2 * r_d.1.2 + r.2.2 * r_d.2.2;
    Vec3(
        q00 * f.0 + q01 * f.1 + q02 * f.2,
        q10 * f.0 + q11 * f.1 + q12 * f.2,
        q20 * f.0 + q21 * f.1 + q22 * f.2,
    )
}

// What nobody commanded of the filtered rate: all of it where there is no feedforward. Three zeros in its place would not do: by an entry of the product
// that is not finite they give a NaN.
fn rate_error(
    omega: BodyRate,
    r: Mat3,
    feedforward: Option<BodyRate>,
    r_d: Option<Mat3>,
) -> BodyRate
    ensures { result ≡ rate_error omega r feedforward r_d }
{
    let (Some(f), Some(r_d)) = (feedforward, r_d) else {
        return omega;
    };
    let c = commanded(r, r_d, f.0);
    BodyRate(Vec3(omega.0.0 - c.0, omega.0.1 - c.1, omega.0.2 - c.2))
}

fn rate_sq(e: BodyRate) -> f32
    ensures { result ≡ rate_sq e }
{
    dot(e.0, e.0)
}

#[tactic(auto, unfolding(laws::proofs::Prelude::div, laws::proofs::Prelude::of_bits))]
fn psi_of(r: Mat3, r_d: Option<Mat3>) -> f32
    ensures { result ≡ psi_of r r_d }
{
    r_d.map_or(f32::NAN, |r_d| GeoAtt::psi(r, r_d))
}

// R, R_d and the feedforward are built once, and the length of g - a is taken once: the fallback, psi and the margin share them, bit for bit as the
// Rust's own calls have them. With no R_d psi is a NaN, of which the margin is minus infinity.
fn guide_whole(
    gains: GeoGains,
    set: RecoverableSet,
    rate: BodyRate,
    wanted: Reference,
    input: TickInput,
) -> Guided
    ensures { result ≡ guide_whole gains set rate wanted input }
{
    let w = clean(wanted);
    let thrust = thrust_of(w.acc);
    let r = quat_to_rotmat(input.quat);
    let r_d = attitude_on(thrust, input.yaw);
    let feedforward = feedforward_on(thrust, w.jerk, input.yaw_rate, r_d);
    let att = GeoAtt { gains };
    let fallback = plus(att.rate_toward(r, r_d), feedforward);
    let psi = psi_of(r, r_d);
    let error = rate_error(rate, r, feedforward, r_d);
    let margin = set.margin(psi, rate_sq(error));
    Guided {
        fallback,
        psi,
        margin,
        planner: BodyRate(sanitise3(input.agile.0)),
    }
}

// ---- guide with a rotor lost

// The rate that turns the thrust axis, and none about it: yaw is let go.
fn rate_toward_axis(gains: GeoGains, r: Mat3, axis: Option<Vec3>) -> BodyRate
    ensures { result ≡ rate_toward_axis gains r axis }
{
    match axis {
        Some(b3) => {
            let e = GeoAtt::attitude_error_reduced(r, b3);
            let k = gains.k_r;
            BodyRate(Vec3(-k.0 * e.0, -k.1 * e.1, 0.0))
        }
        None => BodyRate(Vec3(0.0, 0.0, 0.0)),
    }
}

// 0 where the thrust axis lies as it should, 2 where it is upside down.
#[tactic(auto, unfolding(laws::proofs::Prelude::div, laws::proofs::Prelude::of_bits))]
fn psi_to_axis(r: Mat3, axis: Option<Vec3>) -> f32
    ensures { result ≡ psi_to_axis r axis }
{
    axis.map_or(f32::NAN, |b3| 1.0 - dot(Vec3(r.0.2, r.1.2, r.2.2), b3))
}

fn tilt_rate_sq(w: BodyRate) -> f32
    ensures { result ≡ tilt_rate_sq w }
{
    w.0.0 * w.0.0 + w.0.1 * w.0.1
}

// Of the input no heading is read, and no R_d is built. With no thrust axis psi is a NaN, of which the margin is minus infinity.
fn guide_lost_rotor(
    gains: GeoGains,
    set: RecoverableSet,
    rate: BodyRate,
    wanted: Reference,
    input: TickInput,
) -> Guided
    ensures { result ≡ guide_lost_rotor gains set rate wanted input }
{
    let axis = thrust_axis_ned(sanitise3(wanted.acc));
    let r = quat_to_rotmat(input.quat);
    let fallback = rate_toward_axis(gains, r, axis);
    let psi = psi_to_axis(r, axis);
    let margin = set.margin(psi, tilt_rate_sq(rate));
    let planner = sanitise3(input.agile.0);
    Guided {
        fallback,
        psi,
        margin,
        planner: BodyRate(Vec3(planner.0, planner.1, 0.0)),
    }
}

fn guide(
    profile: Profile,
    gains: GeoGains,
    set: RecoverableSet,
    rate: BodyRate,
    wanted: Reference,
    input: TickInput,
) -> Guided
    ensures { result ≡ guide profile gains set rate wanted input }
{
    match profile {
        Profile::Whole => guide_whole(gains, set, rate, wanted, input),
        Profile::LostRotor => guide_lost_rotor(gains, set, rate, wanted, input),
    }
}

// ---- observe, pick, follow

// With a rotor lost the third observer is not asked: what it has stands.
fn observe_third(profile: Profile, axis: AdrcAxis, measured: f32, dt: f32) -> Observed
    ensures { result ≡ observe_third profile axis measured dt }
{
    match profile {
        Profile::Whole => axis.observe(measured, dt),
        Profile::LostRotor => Observed {
            z1: axis.z1,
            z2: axis.z2,
            u_act: axis.u_act,
        },
    }
}

// What the three observers see. They need nothing of the guidance, so they go before it.
fn observe(profile: Profile, rate: AdrcRate, measured: BodyRate, dt: f32) -> Observed3
    ensures { result ≡ observe profile rate measured dt }
{
    let m = measured.0;
    Observed3 {
        roll: rate.roll.observe(m.0, dt),
        pitch: rate.pitch.observe(m.1, dt),
        yaw: observe_third(profile, rate.yaw, m.2, dt),
    }
}

fn act_third(profile: Profile, axis: AdrcAxis, observed: Observed, wanted: f32) -> AxisTick
    ensures { result ≡ act_third profile axis observed wanted }
{
    match profile {
        Profile::Whole => axis.act(observed, wanted),
        Profile::LostRotor => AxisTick { axis, u: 0.0 },
    }
}

// Axis by axis: a body rate was observed, a body rate is wanted, and a torque comes out.
fn follow(profile: Profile, rate: AdrcRate, observed: Observed3, wanted: BodyRate) -> RateTick
    ensures { result ≡ follow_on profile rate observed wanted }
{
    let w = wanted.0;
    let roll = rate.roll.act(observed.roll, w.0);
    let pitch = rate.pitch.act(observed.pitch, w.1);
    let yaw = act_third(profile, rate.yaw, observed.yaw, w.2);
    RateTick {
        rate: AdrcRate {
            roll: roll.axis,
            pitch: pitch.axis,
            yaw: yaw.axis,
        },
        torque: Torque(Vec3(roll.u, pitch.u, yaw.u)),
    }
}

// The command before its non-finite numbers are made zero. ADRC's `act` does that itself, so it is done once on the way to the torque (docs/SPEED.md).
fn chosen(engaged: bool, planner: BodyRate, fallback: BodyRate) -> BodyRate
    ensures { result ≡ cond engaged fallback planner }
{
    if engaged { fallback } else { planner }
}

// The shield picks, and ADRC follows the pick.
fn pick(fixed: Fixed, prepared: Prepared, observed: Observed3, guided: Guided) -> Ticked
    ensures { result ≡ pick_on fixed prepared observed guided }
{
    let shield = SimplexShield {
        set: fixed.set,
        engaged: prepared.moving.engaged,
        enter: fixed.enter,
        exit: fixed.exit,
    };
    let picked = shield.step(guided.margin, guided.planner, guided.fallback);
    let followed = follow(
        fixed.profile,
        prepared.moving.rate,
        observed,
        chosen(picked.fallback, guided.planner, guided.fallback),
    );
    Ticked {
        engaged: picked.shield.engaged,
        rate: followed.rate,
        answer: Answer {
            torque: followed.torque,
            command: picked.command,
            fallback: picked.fallback,
            time: prepared.time,
            psi: guided.psi,
            margin: guided.margin,
        },
    }
}

// All of a tick that comes after its reference, whatever that was taken of.
pub fn guide_pick_follow(
    fixed: Fixed,
    prepared: Prepared,
    wanted: Reference,
    input: TickInput,
) -> Ticked
    ensures { result ≡ guide_pick_follow fixed prepared wanted input }
{
    let profile = fixed.profile;
    let observed = observe(profile, prepared.moving.rate, prepared.rate, input.dt);
    let guided = guide(
        profile,
        fixed.gains,
        fixed.set,
        prepared.rate,
        wanted,
        input,
    );
    pick(fixed, prepared, observed, guided)
}
