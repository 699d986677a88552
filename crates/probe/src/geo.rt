// relay_geo.
ghost use Rattle.std.specs.Prelude.{◌≡◌};
ghost use Rattle.relay_geo.specs.Vectors.{gravity_ned, cross, dot, norm, normalize, identity3, transpose3, matmul3, vee, sanitise3};
ghost use Rattle.relay_geo.specs.Attitude.{quat_to_rotmat, desired_attitude, thrust_axis_ned, thrust_attitude, flatness_omega_ff};
ghost use Rattle.relay_geo.specs.Inner.{thrust_of, feedforward_on};
ghost use Rattle.relay_geo.specs.Controller.{falcon_quad_gains, psi, attitude_error, attitude_error_reduced, moment_reduced, moment, desired_rate, tick};
ghost use Rattle.relay_geo.specs.Set.{new_set, margin, recoverable};
ghost use Rattle.relay_geo.specs.Shield.{new_shield, step, filter};
ghost use Rattle.probe.specs.Answers.{axis_answer, attitude_answer, rate_answer};

use relay_geo::{GeoAtt, GeoGains, Mat3, Quat, RecoverableSet, Shielded, SimplexShield};
use relay_math::{BodyRate, Torque, Vec3};

// ---- answers that may be a refusal: a struct for each, since no struct with a type parameter may stand in the signature of a C call

#[repr(C)]
#[derive(Clone, Copy)]
pub struct AxisAnswer {
    pub given: bool,
    pub axis: Vec3,
}

#[repr(C)]
#[derive(Clone, Copy)]
pub struct AttitudeAnswer {
    pub given: bool,
    pub matrix: Mat3,
}

#[repr(C)]
#[derive(Clone, Copy)]
pub struct RateAnswer {
    pub given: bool,
    pub rate: BodyRate,
}

const ZEROS: Vec3 = Vec3(0.0, 0.0, 0.0);

fn axis_answer(axis: Option<Vec3>) -> AxisAnswer
    ensures { result ≡ axis_answer axis }
{
    AxisAnswer {
        given: axis.is_some(),
        axis: axis.unwrap_or(ZEROS),
    }
}

fn attitude_answer(matrix: Option<Mat3>) -> AttitudeAnswer
    ensures { result ≡ attitude_answer matrix }
{
    AttitudeAnswer {
        given: matrix.is_some(),
        matrix: matrix.unwrap_or(Mat3(ZEROS, ZEROS, ZEROS)),
    }
}

fn rate_answer(rate: Option<BodyRate>) -> RateAnswer
    ensures { result ≡ rate_answer rate }
{
    RateAnswer {
        given: rate.is_some(),
        rate: rate.unwrap_or(BodyRate(ZEROS)),
    }
}

// ---- vectors and matrices

#[unsafe(no_mangle)]
pub extern "C" fn probe_gravity_ned() -> Vec3
    ensures { result ≡ gravity_ned }
{
    relay_geo::GRAVITY_NED
}

#[unsafe(no_mangle)]
pub extern "C" fn probe_cross(a: Vec3, b: Vec3) -> Vec3
    ensures { result ≡ cross a b }
{
    relay_geo::cross(a, b)
}

#[unsafe(no_mangle)]
pub extern "C" fn probe_dot(a: Vec3, b: Vec3) -> f32
    ensures { result ≡ dot a b }
{
    relay_geo::dot(a, b)
}

#[unsafe(no_mangle)]
pub extern "C" fn probe_norm(a: Vec3) -> f32
    ensures { result ≡ norm a }
{
    relay_geo::norm(a)
}

#[unsafe(no_mangle)]
pub extern "C" fn probe_normalize(a: Vec3) -> AxisAnswer
    ensures { result ≡ axis_answer (normalize a) }
{
    axis_answer(relay_geo::normalize(a))
}

#[unsafe(no_mangle)]
pub extern "C" fn probe_identity3() -> Mat3
    ensures { result ≡ identity3 }
{
    relay_geo::identity3()
}

#[unsafe(no_mangle)]
pub extern "C" fn probe_transpose3(m: Mat3) -> Mat3
    ensures { result ≡ transpose3 m }
{
    relay_geo::transpose3(m)
}

#[unsafe(no_mangle)]
pub extern "C" fn probe_matmul3(a: Mat3, b: Mat3) -> Mat3
    ensures { result ≡ matmul3 a b }
{
    relay_geo::matmul3(a, b)
}

#[unsafe(no_mangle)]
pub extern "C" fn probe_vee(m: Mat3) -> Vec3
    ensures { result ≡ vee m }
{
    relay_geo::vee(m)
}

#[unsafe(no_mangle)]
pub extern "C" fn probe_sanitise3(v: Vec3) -> Vec3
    ensures { result ≡ sanitise3 v }
{
    relay_geo::sanitise3(v)
}

// ---- attitudes

#[unsafe(no_mangle)]
pub extern "C" fn probe_quat_to_rotmat(q: Quat) -> Mat3
    ensures { result ≡ quat_to_rotmat q }
{
    relay_geo::quat_to_rotmat(q)
}

#[unsafe(no_mangle)]
pub extern "C" fn probe_desired_attitude(b3_d: Vec3, yaw: f32) -> AttitudeAnswer
    ensures { result ≡ attitude_answer (desired_attitude b3_d yaw) }
{
    attitude_answer(relay_geo::desired_attitude(b3_d, yaw))
}

#[unsafe(no_mangle)]
pub extern "C" fn probe_thrust_axis_ned(a_cmd: Vec3) -> AxisAnswer
    ensures { result ≡ axis_answer (thrust_axis_ned a_cmd) }
{
    axis_answer(relay_geo::thrust_axis_ned(a_cmd))
}

#[unsafe(no_mangle)]
pub extern "C" fn probe_thrust_attitude(a_cmd: Vec3, yaw: f32) -> AttitudeAnswer
    ensures { result ≡ attitude_answer (thrust_attitude a_cmd yaw) }
{
    attitude_answer(relay_geo::thrust_attitude(a_cmd, yaw))
}

#[unsafe(no_mangle)]
pub extern "C" fn probe_flatness_omega_ff(
    a_cmd: Vec3,
    j_cmd: Vec3,
    yaw: f32,
    yaw_rate: f32,
) -> RateAnswer
    ensures { result ≡ rate_answer (flatness_omega_ff a_cmd j_cmd yaw yaw_rate) }
{
    rate_answer(relay_geo::flatness_omega_ff(a_cmd, j_cmd, yaw, yaw_rate))
}

// With the attitude worked out apart, as the joint tick has it: to be the same as `flatness_omega_ff`.
#[unsafe(no_mangle)]
pub extern "C" fn probe_feedforward_from(
    a_cmd: Vec3,
    j_cmd: Vec3,
    yaw: f32,
    yaw_rate: f32,
) -> RateAnswer
    ensures { result ≡ rate_answer (feedforward_on (thrust_of a_cmd) j_cmd yaw_rate (thrust_attitude a_cmd yaw)) }
{
    rate_answer(relay_geo::feedforward_on(
        relay_geo::thrust_of(a_cmd),
        j_cmd,
        yaw_rate,
        relay_geo::thrust_attitude(a_cmd, yaw),
    ))
}

// ---- the controller

#[unsafe(no_mangle)]
pub extern "C" fn probe_geogains_falcon_quad() -> GeoGains
    ensures { result ≡ falcon_quad_gains }
{
    GeoGains::falcon_quad()
}

#[unsafe(no_mangle)]
pub extern "C" fn probe_geoatt_new(gains: GeoGains) -> GeoAtt
    ensures { result ≡ record { gains = gains } }
{
    GeoAtt::new(gains)
}

#[unsafe(no_mangle)]
pub extern "C" fn probe_geoatt_psi(r: Mat3, r_d: Mat3) -> f32
    ensures { result ≡ psi r r_d }
{
    GeoAtt::psi(r, r_d)
}

#[unsafe(no_mangle)]
pub extern "C" fn probe_geoatt_attitude_error(r: Mat3, r_d: Mat3) -> Vec3
    ensures { result ≡ attitude_error r r_d }
{
    GeoAtt::attitude_error(r, r_d)
}

#[unsafe(no_mangle)]
pub extern "C" fn probe_geoatt_attitude_error_reduced(r: Mat3, b3_d: Vec3) -> Vec3
    ensures { result ≡ attitude_error_reduced r b3_d }
{
    GeoAtt::attitude_error_reduced(r, b3_d)
}

#[unsafe(no_mangle)]
pub extern "C" fn probe_geoatt_moment_reduced(
    c: GeoAtt,
    r: Mat3,
    omega: BodyRate,
    b3_d: Vec3,
) -> Torque
    ensures { result ≡ moment_reduced c.gains r omega b3_d }
{
    c.moment_reduced(r, omega, b3_d)
}

#[unsafe(no_mangle)]
pub extern "C" fn probe_geoatt_moment(c: GeoAtt, r: Mat3, omega: BodyRate, r_d: Mat3) -> Torque
    ensures { result ≡ moment c.gains r omega r_d }
{
    c.moment(r, omega, r_d)
}

#[unsafe(no_mangle)]
pub extern "C" fn probe_geoatt_desired_rate(
    c: GeoAtt,
    q_est: Quat,
    a_cmd_ned: Vec3,
    yaw_d: f32,
) -> BodyRate
    ensures { result ≡ desired_rate c.gains q_est a_cmd_ned yaw_d }
{
    c.desired_rate(q_est, a_cmd_ned, yaw_d)
}

#[unsafe(no_mangle)]
pub extern "C" fn probe_geoatt_tick(
    c: GeoAtt,
    q_est: Quat,
    omega_body: BodyRate,
    a_cmd_ned: Vec3,
    yaw_d: f32,
) -> Torque
    ensures { result ≡ tick c.gains q_est omega_body a_cmd_ned yaw_d }
{
    c.tick(q_est, omega_body, a_cmd_ned, yaw_d)
}

// ---- the recoverable set

#[unsafe(no_mangle)]
pub extern "C" fn probe_recoverableset_new(k_r: f32, lambda_j: f32, psi_max: f32) -> RecoverableSet
    ensures { result ≡ new_set k_r lambda_j psi_max }
{
    RecoverableSet::new(k_r, lambda_j, psi_max)
}

#[unsafe(no_mangle)]
pub extern "C" fn probe_recoverableset_margin(s: RecoverableSet, psi: f32, e_omega_sq: f32) -> f32
    ensures { result ≡ margin s psi e_omega_sq }
{
    s.margin(psi, e_omega_sq)
}

#[unsafe(no_mangle)]
pub extern "C" fn probe_recoverableset_recoverable(
    s: RecoverableSet,
    psi: f32,
    e_omega_sq: f32,
) -> bool
    ensures { result ≡ recoverable s psi e_omega_sq }
{
    s.recoverable(psi, e_omega_sq)
}

// ---- the shield

#[unsafe(no_mangle)]
pub extern "C" fn probe_simplexshield_new(
    set: RecoverableSet,
    enter: f32,
    exit: f32,
) -> SimplexShield
    ensures { result ≡ new_shield set enter exit }
{
    SimplexShield::new(set, enter, exit)
}

#[unsafe(no_mangle)]
pub extern "C" fn probe_simplexshield_fallback_engaged(s: SimplexShield) -> bool
    ensures { result ≡ s.engaged }
{
    s.fallback_engaged()
}

#[unsafe(no_mangle)]
pub extern "C" fn probe_simplexshield_filter(
    s: SimplexShield,
    psi: f32,
    e_omega_sq: f32,
    agile: BodyRate,
    fallback: BodyRate,
) -> Shielded
    ensures { result ≡ filter s psi e_omega_sq agile fallback }
{
    s.filter(psi, e_omega_sq, agile, fallback)
}

#[unsafe(no_mangle)]
pub extern "C" fn probe_simplexshield_step(
    s: SimplexShield,
    margin: f32,
    agile: BodyRate,
    fallback: BodyRate,
) -> Shielded
    ensures { result ≡ step s margin agile fallback }
{
    s.step(margin, agile, fallback)
}
