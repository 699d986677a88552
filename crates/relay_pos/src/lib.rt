// Of 003, `euler_to_quaternion` alone: document 01 leaves out the rest, the position controller.
#![tactic(auto)]

ghost use Rattle.std.specs.Prelude.{◌≡◌};
ghost use Rattle.relay_pos.specs.Euler.{euler_to_quaternion};

use relay_math::{SineCosine, sincos};

// w, x, y, z: the Rust's `[f32; 4]`.
#[repr(C)]
#[derive(Clone, Copy)]
pub struct Quaternion(pub f32, pub f32, pub f32, pub f32);

// Angles in rad: the turn by yaw, then pitch, then roll. Sine and cosine of a half-angle share one reduction.
#[tactic(auto, unfolding(crate::specs::Euler::euler_to_quaternion, relay_math::specs::Steps::sinf, relay_math::specs::Steps::cosf))]
pub fn euler_to_quaternion(roll: f32, pitch: f32, yaw: f32) -> Quaternion
    ensures { result ≡ euler_to_quaternion roll pitch yaw }
{
    let SineCosine {
        sine: sr,
        cosine: cr,
    } = sincos(roll * 0.5);
    let SineCosine {
        sine: sp,
        cosine: cp,
    } = sincos(pitch * 0.5);
    let SineCosine {
        sine: sy,
        cosine: cy,
    } = sincos(yaw * 0.5);
    Quaternion(
        cr * cp * cy + sr * sp * sy,
        sr * cp * cy - cr * sp * sy,
        cr * sp * cy + sr * cp * sy,
        cr * cp * sy - sr * sp * cy,
    )
}
