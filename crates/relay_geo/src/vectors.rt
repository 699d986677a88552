// Vectors and 3x3 matrices.
ghost use Rattle.std.specs.Prelude.{◌≡◌};
ghost use Rattle.relay_geo.specs.Vectors.{cross, dot, norm, direction_of, normalize, identity3, transpose3, prod3, matmul3, transposed_times, vee, sanitise3};

use relay_math::{Vec3, finite_above, finite_or, sqrtf_near_one};

// Row-major: the Rust's `m[2][1]` is `m.2.1`.
#[repr(C)]
#[derive(Clone, Copy)]
pub struct Mat3(pub Vec3, pub Vec3, pub Vec3);

// w, x, y, z.
#[repr(C)]
#[derive(Clone, Copy)]
pub struct Quat(pub f32, pub f32, pub f32, pub f32);

// Standard gravity in NED (down +), m/s^2.
pub const GRAVITY_NED: Vec3 = Vec3(0.0, 0.0, 9.81);

pub fn cross(a: Vec3, b: Vec3) -> Vec3
    ensures { result ≡ cross a b }
{
    Vec3(
        a.1 * b.2 - a.2 * b.1,
        a.2 * b.0 - a.0 * b.2,
        a.0 * b.1 - a.1 * b.0,
    )
}

pub fn dot(a: Vec3, b: Vec3) -> f32
    ensures { result ≡ dot a b }
{
    a.0 * b.0 + a.1 * b.1 + a.2 * b.2
}

// An axis is brought to length 1 twice over in each tick, so a sum next to 1 comes often.
pub fn norm(a: Vec3) -> f32
    ensures { result ≡ norm a }
{
    sqrtf_near_one(dot(a, a))
}

// The direction, of length one, of a vector whose length n is there already, or a plain refusal that carries no number.
pub(crate) fn direction_of(a: Vec3, n: f32) -> Option<Vec3>
    ensures { result ≡ direction_of a n }
{
    if finite_above(1e-9, n) {
        Some(Vec3(a.0 / n, a.1 / n, a.2 / n))
    } else {
        None
    }
}

pub fn normalize(a: Vec3) -> Option<Vec3>
    ensures { result ≡ normalize a }
{
    direction_of(a, norm(a))
}

pub fn identity3() -> Mat3
    ensures { result ≡ identity3 }
{
    Mat3(
        Vec3(1.0, 0.0, 0.0),
        Vec3(0.0, 1.0, 0.0),
        Vec3(0.0, 0.0, 1.0),
    )
}

pub fn transpose3(m: Mat3) -> Mat3
    ensures { result ≡ transpose3 m }
{
    Mat3(
        Vec3(m.0.0, m.1.0, m.2.0),
        Vec3(m.0.1, m.1.1, m.2.1),
        Vec3(m.0.2, m.1.2, m.2.2),
    )
}

// One entry of a product: it starts from 0.0, so it is never a negative zero.
fn prod3(row: Vec3, column: Vec3) -> f32
    ensures { result ≡ prod3 row column }
{
    0.0 + row.0 * column.0 + row.1 * column.1 + row.2 * column.2
}

pub fn matmul3(a: Mat3, b: Mat3) -> Mat3
    ensures { result ≡ matmul3 a b }
{
    let c = transpose3(b);
    Mat3(
        Vec3(prod3(a.0, c.0), prod3(a.0, c.1), prod3(a.0, c.2)),
        Vec3(prod3(a.1, c.0), prod3(a.1, c.1), prod3(a.1, c.2)),
        Vec3(prod3(a.2, c.0), prod3(a.2, c.1), prod3(a.2, c.2)),
    )
}

// The transposed m times v, where the Rust writes the three sums out: they don't start from 0.0, so a negative zero can come out.
pub(crate) fn transposed_times(m: Mat3, v: Vec3) -> Vec3
    ensures { result ≡ transposed_times m v }
{
    Vec3(
        m.0.0 * v.0 + m.1.0 * v.1 + m.2.0 * v.2,
        m.0.1 * v.0 + m.1.1 * v.1 + m.2.1 * v.2,
        m.0.2 * v.0 + m.1.2 * v.1 + m.2.2 * v.2,
    )
}

// The vector of a skew-symmetric matrix.
pub fn vee(m: Mat3) -> Vec3
    ensures { result ≡ vee m }
{
    Vec3(
        0.5 * (m.2.1 - m.1.2),
        0.5 * (m.0.2 - m.2.0),
        0.5 * (m.1.0 - m.0.1),
    )
}

// Each number kept if it is finite, else 0.0. (It stands further below in the Rust; attitudes, controller and shield all use it.)
pub fn sanitise3(v: Vec3) -> Vec3
    ensures { result ≡ sanitise3 v }
{
    Vec3(
        finite_or(v.0, 0.0),
        finite_or(v.1, 0.0),
        finite_or(v.2, 0.0),
    )
}
