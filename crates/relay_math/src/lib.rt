// Numbers (004): square root, sine, cosine, absolute value and finiteness of an f32, for every bit pattern.
// Vectors, body rates and torques are declared here too, so that every crate above has one kind of each.
#![tactic(auto)]

ghost use Rattle.std.specs.Prelude.{◌≡◌};
ghost use Rattle.relay_math.specs.F32.{is_finite, finite_or, finite_above, above_or, clamp, clamp_or, fabsf};

mod angles; // angles.rt: sine and cosine
mod reciprocal; // reciprocal.rt: a table for the root's first guess
mod sqrt; // sqrt.rt: the square root

pub use angles::{SineCosine, cosf, sincos, sinf};
pub use sqrt::{sqrtf, sqrtf_near_one};

// Three numbers with no meaning of their own: the Rust's `[f32; 3]`, and `v.0`, `v.1`, `v.2` for its `v[0]`, `v[1]`, `v[2]`.
#[repr(C)]
#[derive(Clone, Copy)]
pub struct Vec3(pub f32, pub f32, pub f32);

// An angular velocity in the body's axes, rad/s.
#[repr(C)]
#[derive(Clone, Copy)]
pub struct BodyRate(pub Vec3);

// A torque about the body's axes.
#[repr(C)]
#[derive(Clone, Copy)]
pub struct Torque(pub Vec3);

// The size of x: its sign dropped. Of a zero comes +0.0, for 0.0 - 0.0 is that. One test and no more: the compiler makes one instruction of it, where a
// second test for zero made two branches, which a tick felt (docs/SPEED.md).
pub fn fabsf(x: f32) -> f32
    ensures { result ≡ fabsf x }
{
    if x > 0.0 { x } else { 0.0 - x }
}

// Neither an infinity nor a NaN.
pub fn is_finite(x: f32) -> bool
    ensures { result ≡ is_finite x }
{
    x.is_finite()
}

// x where it is finite, else d.
pub fn finite_or(x: f32, d: f32) -> f32
    ensures { result ≡ finite_or x d }
{
    if is_finite(x) { x } else { d }
}

// One test for each rule that takes neither a NaN nor an infinity nor the limit itself.
pub fn finite_above(floor: f32, x: f32) -> bool
    ensures { result ≡ finite_above floor x }
{
    if is_finite(x) { x > floor } else { false }
}

// x where it is finite and above floor, else d.
pub fn above_or(floor: f32, x: f32, d: f32) -> f32
    ensures { result ≡ above_or floor x d }
{
    if finite_above(floor, x) { x } else { d }
}

// Rust's `x.clamp(lo, hi)`: two comparisons, one after the other, so a negative zero and a NaN pass. Rust panics where lo is above hi or one is a NaN; here the comparisons alone decide.
pub fn clamp(x: f32, lo: f32, hi: f32) -> f32
    ensures { result ≡ clamp x lo hi }
{
    let x = if x < lo { lo } else { x };
    if x > hi { hi } else { x }
}

// x held within lo to hi, or d where it is not finite.
pub fn clamp_or(x: f32, lo: f32, hi: f32, d: f32) -> f32
    ensures { result ≡ clamp_or x lo hi d }
{
    if is_finite(x) { clamp(x, lo, hi) } else { d }
}
