// Sine and cosine of an f32: our own steps, in whole numbers, within 2^-23 of document 01's exact values. docs/ANGLES.md tells them in words.
ghost use Rattle.std.specs.Prelude.{◌≡◌, ◌^◌, ◌<◌, ◌≤◌, T, if◌then◌else◌};
ghost use Rattle.std.specs.Float.Ieee.{le};
ghost use Rattle.relay_math.specs.F32.{fabsf};
ghost use Rattle.relay_math.specs.Exact.{Limit, IsSine, IsCosine};
ghost use Rattle.relay_math.specs.Steps.{part, less_part, poly_of, sin_poly, cos_poly, to_float, signed, reduce_of, turned, fixed, large, sincos, sinf, cosf, Tiny, Most};

// Sine and cosine are served up to this size, and give +0.0 beyond it.
const LIMIT: f32 = 8192.0;

// Below this size sine is the number itself and cosine is 1: 2^-12.
const TINY: f32 = 0.000244140625;

// P in units of 2^-48: pi / 2 to 49 bits.
const P: u64 = 0x1921FB54442D1;

// 1 in units of 2^-32, and in units of 2^-48.
pub(crate) const ONE: u64 = 4294967296;

const WHOLE: u64 = 281474976710656;

// Taylor's coefficients in units of 2^-32, 1/3! to 1/9! and 1/2! to 1/8!; from each last one 0.59 of the next is taken, which makes up for all that are left out.
const SINE_0: u64 = 0x2AAAAAAB;

const SINE_1: u64 = 0x2222222;

const SINE_2: u64 = 0xD00D0;

const SINE_3: u64 = 0x2DFC;

const COSINE_0: u64 = 0x80000000;

const COSINE_1: u64 = 0xAAAAAAB;

const COSINE_2: u64 = 0x5B05B0;

const COSINE_3: u64 = 0x19D60;

#[repr(C)]
#[derive(Clone, Copy)]
pub struct SineCosine {
    pub sine: f32,
    pub cosine: f32,
}

// What is left of a size when the nearest multiple n of P is taken off: n modulo 4, the rest's size in units of 2^-48, its square in units of 2^-32, and whether n P is the larger.
#[derive(Clone, Copy)]
struct Reduced {
    n: u64,
    r: u64,
    z: u64,
    back: bool,
}

// The product of two fractions in units of 2^-32, cut.
pub(crate) fn part_of(z: u64, t: u64) -> u64
    requires z_small { z < 2 ^ 32 }
    requires t_small { t ≤ 2 ^ 32 }
    ensures is { result ≡ part z t }
    ensures small { result < 2 ^ 32 }
    ensures least { result ≤ t }
{
    z * t / ONE
}

// r less the fraction q of it, q in units of 2^-32.
fn less_part(r: u64, q: u64) -> u64
    requires r_small { r ≤ 2 ^ 48 }
    requires q_small { q < 2 ^ 32 }
    ensures is { result ≡ less_part r q }
    ensures small { result ≤ r }
{
    r - r / 65536 * q / 65536
}

// r (1 - z (k0 - z (k1 - z (k2 - z k3)))).
fn poly_of(r: u64, z: u64, k0: u64, k1: u64, k2: u64, k3: u64) -> u64
    requires r_small { r ≤ 2 ^ 48 }
    requires z_small { z < 2 ^ 32 }
    requires falling { (k0 ≤ 2 ^ 32) × (k1 ≤ k0) × (k2 ≤ k1) × (k3 ≤ k2) }
    ensures is { result ≡ poly_of r z k0 k1 k2 k3 }
    ensures small { result ≤ 2 ^ 48 }
{
    let t2 = k2 - part_of(z, k3);
    let t1 = k1 - part_of(z, t2);
    let t0 = k0 - part_of(z, t1);
    less_part(r, part_of(z, t0))
}

// An `if` of this size is compiled to no branch.
fn pick_of(b: bool, x: u64, y: u64) -> u64
    ensures { result ≡ (if b then x else y) }
{
    if b { x } else { y }
}

// The sine of r where `sine` says so, else the cosine: one polynomial, by its coefficients.
fn either_poly(sine: bool, r: u64, z: u64) -> u64
    requires r_small { r < 2 ^ 48 }
    requires z_small { z < 2 ^ 32 }
    ensures is { result ≡ (if sine then sin_poly r z else cos_poly z) }
    ensures small { result ≤ 2 ^ 48 }
{
    poly_of(
        pick_of(sine, r, WHOLE),
        z,
        pick_of(sine, SINE_0, COSINE_0),
        pick_of(sine, SINE_1, COSINE_1),
        pick_of(sine, SINE_2, COSINE_2),
        pick_of(sine, SINE_3, COSINE_3),
    )
}

// A size of at most 2^62 in units of 2^-48, reduced. The remainder by 2^63 changes nothing: it tells the compiler that the sum is small, which spares the division a correction.
#[tactic(auto, unfolding(crate::specs::Steps::reduce_of, crate::specs::Steps::cut_square))]
fn reduce(x: u64) -> Reduced
    requires { x < 2 ^ 62 }
    ensures is { result ≡ reduce_of x }
    ensures small { (result.n < 4) × (result.r < 2 ^ 48) × (result.z < 2 ^ 32) }
{
    let n = (x + P / 2) % 9223372036854775808 / P;
    let r = x.abs_diff(n * P);
    let h = r / 65536;
    Reduced {
        n: n % 4,
        r,
        z: part_of(h, h),
        back: x < n * P,
    }
}

// The f32 nearest v, which is in units of 2^-48, with a sign: two halves, each an f32 exactly, whose sum rounds once. 2^-24 and 2^-48 have the sign among their bits, since an `if` on floats is compiled to a branch.
fn to_float(s: bool, v: u64) -> f32
    requires { v ≤ 2 ^ 48 }
    ensures { result ≡ signed s (to_float v) }
{
    let sign = s as u32 * 0x80000000;
    ((v / 16777216) as f32) * f32::from_bits(sign + 0x33800000)
        + ((v % 16777216) as f32) * f32::from_bits(sign + 0x27800000)
}

// The size of x, from 2^-12 to 2^13, in units of 2^-48.
fn fixed_of(x: f32) -> u64
    requires from_tiny { T (le Tiny (fabsf x)) }
    requires to_most { T (le (fabsf x) Most) }
    ensures is { result ≡ fixed x }
    ensures small { result < 2 ^ 62 }
{
    let b = f32::to_bits(x);
    let m = (b % 8388608 + 8388608) as u64;
    m << (b / 8388608 % 256 - 102)
}

fn signed_of(s: bool, v: f32) -> f32
    ensures { result ≡ signed s v }
{
    if s { -v } else { v }
}

fn served(a: f32) -> bool
    ensures { result ≡ le a Limit }
{
    a <= LIMIT
}

// By n modulo 4: sn, cs, -sn or -cs; sn has another sign if `back`, and all of it if s.
#[tactic(auto, unfolding(crate::specs::Steps::turned))]
fn turned_of(s: bool, n: u64, back: bool, sn: u64, cs: u64) -> f32
    requires sn_small { sn ≤ 2 ^ 48 }
    requires cs_small { cs ≤ 2 ^ 48 }
    ensures { result ≡ turned s n back (to_float sn) (to_float cs) }
{
    let even = n % 2 == 0;
    to_float((s != (2 <= n)) != (even & back), pick_of(even, sn, cs))
}

// Both, from 2^-12 up to 2^13.
#[tactic(auto, unfolding(crate::specs::Steps::large))]
fn large_of(s: bool, x: f32) -> SineCosine
    requires from_tiny { T (le Tiny (fabsf x)) }
    requires to_most { T (le (fabsf x) Most) }
    ensures { result ≡ large s x }
{
    let d = reduce(fixed_of(x));
    let sn = either_poly(true, d.r, d.z);
    let cs = either_poly(false, d.r, d.z);
    SineCosine {
        sine: turned_of(s, d.n, d.back, sn, cs),
        cosine: turned_of(false, (d.n + 1) % 4, d.back, sn, cs),
    }
}

// Sine and cosine of x by one reduction.
pub fn sincos(x: f32) -> SineCosine
    ensures { result ≡ sincos x }
{
    let s = x < 0.0;
    let a = signed_of(s, x);
    if served(a) {
        if TINY <= a {
            large_of(s, x)
        } else {
            SineCosine {
                sine: x,
                cosine: 1.0,
            }
        }
    } else {
        SineCosine {
            sine: 0.0,
            cosine: 0.0,
        }
    }
}

// The sine of x: document 01's rule, and our own steps to it.
pub fn sinf(x: f32) -> f32
    ensures near { IsSine Limit 20 x result }
    ensures is { result ≡ sinf x }
{
    let s = x < 0.0;
    let a = signed_of(s, x);
    if served(a) {
        if TINY <= a {
            let d = reduce(fixed_of(x));
            let v = either_poly(d.n % 2 == 0, d.r, d.z);
            turned_of(s, d.n, d.back, v, v)
        } else {
            x
        }
    } else {
        0.0
    }
}

// The cosine of x, likewise.
pub fn cosf(x: f32) -> f32
    ensures near { IsCosine Limit 20 x result }
    ensures is { result ≡ cosf x }
{
    let s = x < 0.0;
    let a = signed_of(s, x);
    if served(a) {
        if TINY <= a {
            let d = reduce(fixed_of(x));
            let n = (d.n + 1) % 4;
            let v = either_poly(n % 2 == 0, d.r, d.z);
            turned_of(false, n, d.back, v, v)
        } else {
            1.0
        }
    } else {
        0.0
    }
}
