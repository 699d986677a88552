// Attitudes: from a quaternion, and from the thrust axis and the heading, with no Euler angles on the way. An attitude is a rotation from body to
// NED; where one, or a feedforward body rate, is refused, that is a plain `None` that carries no number.
ghost use Rattle.std.specs.Prelude.{◌≡◌};
ghost use Rattle.relay_geo.specs.Attitude.{quat_to_rotmat, heading, desired_attitude, thrust_force, thrust_axis_ned, thrust_attitude, too_weak, rate_from, flatness_omega_ff};
ghost use Rattle.relay_geo.specs.Inner.{thrust_of, attitude_on, feedforward_on};

use super::vectors::{
    GRAVITY_NED, Mat3, Quat, cross, direction_of, dot, normalize, sanitise3, transposed_times,
};
use relay_math::{BodyRate, Vec3, is_finite, sincos, sqrtf};

// g - a and its length: what the attitude and the feedforward of one acceleration share, so that its root is taken once.
#[repr(C)]
#[derive(Clone, Copy)]
pub struct Thrust {
    pub force: Vec3,
    pub norm: f32,
}

// Body to NED, from a unit quaternion (Hamilton, w first). One that is no unit is not mended: the zero quaternion gives the identity.
pub fn quat_to_rotmat(q: Quat) -> Mat3
    ensures { result ≡ quat_to_rotmat q }
{
    let w = q.0;
    let x = q.1;
    let y = q.2;
    let z = q.3;
    Mat3(
        Vec3(
            1.0 - 2.0 * (y * y + z * z),
            2.0 * (x * y - w * z),
            2.0 * (x * z + w * y),
        ),
        Vec3(
            2.0 * (x * y + w * z),
            1.0 - 2.0 * (x * x + z * z),
            2.0 * (y * z - w * x),
        ),
        Vec3(
            2.0 * (x * z - w * y),
            2.0 * (y * z + w * x),
            1.0 - 2.0 * (x * x + y * y),
        ),
    )
}

// The heading's direction in the horizontal plane. Sine and cosine by one reduction.
fn heading(yaw: f32) -> Vec3
    ensures { result ≡ heading yaw }
{
    let p = sincos(yaw);
    Vec3(p.cosine, p.sine, 0.0)
}

// The desired attitude: its columns are the desired body axes in NED, the third the given body-down (thrust) axis brought to length 1. It is
// refused where that axis or the heading gives no direction, or the cross product of the two is not above 1e-9 in norm (they are parallel).
#[tactic(auto, unfolding(crate::specs::Attitude::desired_attitude))]
pub fn desired_attitude(b3_d: Vec3, yaw: f32) -> Option<Mat3>
    ensures { result ≡ desired_attitude b3_d yaw }
{
    let b3 = normalize(b3_d)?;
    let b1_des = heading(yaw);
    let b2 = normalize(cross(b3, b1_des))?;
    let b1 = cross(b2, b3);
    Some(Mat3(
        Vec3(b1.0, b2.0, b3.0),
        Vec3(b1.1, b2.1, b3.1),
        Vec3(b1.2, b2.2, b3.2),
    ))
}

// g - a: thrust acts along -body_z (up), so body-z (down) lies along it.
fn thrust_force(a_cmd: Vec3) -> Vec3
    ensures { result ≡ thrust_force a_cmd }
{
    Vec3(
        GRAVITY_NED.0 - a_cmd.0,
        GRAVITY_NED.1 - a_cmd.1,
        GRAVITY_NED.2 - a_cmd.2,
    )
}

// The desired body-down (thrust) axis in NED for a commanded NED acceleration. Free fall has none.
pub fn thrust_axis_ned(a_cmd: Vec3) -> Option<Vec3>
    ensures { result ≡ thrust_axis_ned a_cmd }
{
    normalize(thrust_force(a_cmd))
}

// The desired attitude for a commanded acceleration and a heading.
#[tactic(auto, unfolding(crate::specs::Attitude::thrust_attitude))]
pub fn thrust_attitude(a_cmd: Vec3, yaw: f32) -> Option<Mat3>
    ensures { result ≡ thrust_attitude a_cmd yaw }
{
    thrust_axis_ned(a_cmd).and_then(|b3| desired_attitude(b3, yaw))
}

// The thrust is too weak to have an axis that turns.
fn too_weak(c: f32) -> bool
    ensures { result ≡ too_weak c }
{
    !is_finite(c) || c <= 1e-3
}

// The body rate that turns the thrust axis b3 with the jerk, and yaws with the heading, in the body's axes at the attitude r_d.
fn rate_from(c: f32, b3: Vec3, j_cmd: Vec3, yaw_rate: f32, r_d: Option<Mat3>) -> Option<BodyRate>
    ensures { result ≡ rate_from c b3 j_cmd yaw_rate r_d }
{
    let r_d = r_d?;
    let bxj = cross(b3, j_cmd);
    let w_world = Vec3(-bxj.0 / c, -bxj.1 / c, -bxj.2 / c);
    let w_body = transposed_times(r_d, w_world);
    Some(BodyRate(sanitise3(Vec3(w_body.0, w_body.1, w_body.2 + yaw_rate))))
}

// The thrust of an acceleration. Its norm is written out: so the compiled root stays a call on a number, and no vector goes through memory to it.
pub fn thrust_of(a_cmd: Vec3) -> Thrust
    ensures { result ≡ thrust_of a_cmd }
{
    let tf = thrust_force(a_cmd);
    Thrust {
        force: tf,
        norm: sqrtf(dot(tf, tf)),
    }
}

// `thrust_attitude` of the acceleration whose thrust this is (`shared_attitude` of proofs/Accepts.antt).
#[tactic(auto, unfolding(crate::specs::Inner::attitude_on))]
pub fn attitude_on(t: Thrust, yaw: f32) -> Option<Mat3>
    ensures { result ≡ attitude_on t yaw }
{
    direction_of(t.force, t.norm).and_then(|b3| desired_attitude(b3, yaw))
}

// The feedforward of this thrust for a caller that has the attitude already: of an acceleration's thrust, with its `thrust_attitude`, it is that of
// `flatness_omega_ff` (`feedforward_shares` of proofs/Accepts.antt).
pub fn feedforward_on(t: Thrust, j_cmd: Vec3, yaw_rate: f32, r_d: Option<Mat3>) -> Option<BodyRate>
    ensures { result ≡ feedforward_on t j_cmd yaw_rate r_d }
{
    let tf = t.force;
    let c = t.norm;
    if too_weak(c) {
        return None;
    }
    let b3 = Vec3(tf.0 / c, tf.1 / c, tf.2 / c);
    rate_from(c, b3, j_cmd, yaw_rate, r_d)
}

// The body rate that a flat trajectory demands, from its acceleration, jerk, heading and heading's rate. The Rust's comment has the
// other sign; its code, and this, have -(b3 x j) / c. The Rust builds the attitude of b3; that of the thrust is the same where the thrust is not too weak.
pub fn flatness_omega_ff(a_cmd: Vec3, j_cmd: Vec3, yaw: f32, yaw_rate: f32) -> Option<BodyRate>
    ensures { result ≡ flatness_omega_ff a_cmd j_cmd yaw yaw_rate }
{
    let t = thrust_of(a_cmd);
    feedforward_on(t, j_cmd, yaw_rate, attitude_on(t, yaw))
}
