// The square root of an f32, as IEEE 754 has it.
ghost use Rattle.std.specs.Prelude.{◌≡◌, ℕ, ◌+◌, ◌-◌, ◌*◌, ◌/◌, ◌%◌, ◌^◌, ◌<◌, ◌≤◌, T, from_bits, to_bits, Float};
ghost use Rattle.std.specs.Float.{binary32};
ghost use Rattle.std.specs.Float.Ieee.{fits};
ghost use Rattle.std.specs.Float.Ieee.Positive.{positive};
ghost use Rattle.relay_math.specs.Sqrt.{IsRoot, root_grains, sqrtf};
ghost use Rattle.relay_math.specs.F32.{grains};

use crate::angles::{ONE, part_of};
use crate::reciprocal::LINES;

// 7 / 4 in those units.
const SEVEN_QUARTERS: u64 = 7516192768;

// 2^16: t * 2^46 over it is t / 4 in those units.
const QUARTER_UNITS: u64 = 65536;

// 2^6: 2^29 √t over it is 2^23 √t.
const ROOT_UNITS: u64 = 64;

// Half of it, so that the quotient is rounded.
const HALF_ROOT_UNITS: u64 = 32;

// 2^17: the last 17 digits of d say how far along its part of the table a number is, and the 7 above them which part that is.
const ALONG: u32 = 131072;

// 2^23: an f32's first digit, which its pattern leaves out, and the unit of the exponent's field.
const FIRST: u32 = 8388608;

// 23 in that field.
const FIELD_23: u32 = 192937984;

// 51 in that field.
const FIELD_51: u32 = 427819008;

// The pattern of the infinity.
const INFINITY_BITS: u32 = 0x7f80_0000;

// Half the pattern of 1.0.
const HALF_ONE_BITS: u32 = 0x1fc0_0000;

// The pattern of 1.0 without its last 12 digits.
const UPPER_ONE_BITS: u32 = 0x3f800;

// 2^11: from so much below the pattern of 1.0 to less than that above it, a root's pattern lies half way to that of 1.0.
const NEAR_ONE: u32 = 2048;

// The value on the line e of the table, f of the way along in units of 2^-17: in units of 2^-32.
fn on_line(e: u64, f: u64) -> u64
    requires { f < 2 ^ 17 }
    ensures { result < 2 ^ 32 }
{
    (e / ONE + ONE - e % ONE * f / u64::from(ALONG)) % ONE
}

// A whole number near the root of n = t * 2^46, right for nearly all n whose digits d has. All that is promised is its range: `nearest_root` corrects it.
fn guess(n: u64, d: u32) -> u64
    requires { n < 2 ^ 48 }
    ensures { result ≤ 2 ^ 26 }
{
    // y = 1 / √t; √t = t y, and Newton's step from there: t y (3 - t y^2) / 2.
    // n / 2^16 is t / 4 in units of 2^-32, so s is t y / 4, and u is (3 - t y^2) / 4, taken from 1 more so that it is not below zero.
    // s u is √t / 8, which is 2^29 √t units, and √n is 2^23 √t.
    let y = on_line(
        LINES[(d / ALONG) as usize % LINES.len()],
        u64::from(d % ALONG),
    );
    let s = part_of(n / QUARTER_UNITS, y);
    let u = (SEVEN_QUARTERS - part_of(s, y)) % ONE;
    (part_of(s, u) + HALF_ROOT_UNITS) / ROOT_UNITS
}

// The whole number nearest to the root of n, from any r: no whole number's root lies in the middle of two.
fn search(n: u64, from: u64) -> u64
    requires { (0 < n) × (n < 2 ^ 48) × (from ≤ 2 ^ 26) }
    ensures { (result * result < n + result) × (n ≤ result * result + result) × (result ≤ 2 ^ 24) }
{
    let mut r = from;
    while n + r <= r * r {
        r -= 1;
    }
    while r * r + r < n {
        r += 1;
    }
    r
}

// The whole number nearest to the root of n. The guess is mostly right, and one test shows it: r * r < n + r and n <= r * r + r.
fn nearest_root(n: u64, d: u32) -> u64
    requires { (2 ^ 46 ≤ n) × (n < 2 ^ 48) }
    ensures { (result * result < n + result) × (n ≤ result * result + result) × (result ≤ 2 ^ 24) }
{
    let r = guess(n, d);
    let over = std::num::wrapping_sub_u64(n, r * r - r + 1);
    if over < 2 * r {
        return r;
    }
    search(n, r)
}

// The pattern of the root of m * 2^(e - 172), for an m of 24 digits and d = e * 2^23 + m: of x grains, where x * 2^23 is m * 2^e.
fn root_bits(d: u32) -> u32
    requires { (2 ^ 23 ≤ d) × (d < 301 * 2 ^ 23) }
    ensures is { (x : ℕ) → x * 2 ^ 23 ≡ (d % 2 ^ 23 + 2 ^ 23) * 2 ^ (d / 2 ^ 23 - 1) → from_bits binary32 result ≡ root_grains (x * 2 ^ 149) }
    ensures finite { result < 255 * 2 ^ 23 }
{
    // m shifted by 23 or 24 digits, so that what is left of the exponent is even. (As a product it is quicker than as a shift.)
    let n = ((d % FIRST + FIRST) as u64) * ((d / FIRST % 2 * FIRST + FIRST) as u64);
    // (e + 103) / 2 above the root's own digits
    (d / 2 + FIELD_51) / FIRST * FIRST + (nearest_root(n, d) as u32)
}

// The number that the pattern b has as e * 2^23 + m, with an m of 24 digits: a subnormal one is shifted up.
fn digits(b: u32) -> u32
    requires { (0 < b) × (b < 255 * 2 ^ 23) }
    ensures sized { (2 ^ 23 ≤ result) × (result < 301 * 2 ^ 23) }
    ensures is { (x : Float) → T (fits binary32 x) → T (positive x) → to_bits binary32 x ≡ b → grains x * 2 ^ 23 ≡ (result % 2 ^ 23 + 2 ^ 23) * 2 ^ (result / 2 ^ 23 - 1) }
{
    if b < FIRST {
        let z = u32::leading_zeros(b);
        (31 - z) * FIRST + (b << (z - 8))
    } else {
        b + FIELD_23 // e is 22 more than the pattern's own exponent, and m has its first digit
    }
}

// The pattern of the root of the number that the pattern b has.
fn positive_root(b: u32) -> u32
    requires { (0 < b) × (b < 255 * 2 ^ 23) }
    ensures is { (x : Float) → T (fits binary32 x) → T (positive x) → to_bits binary32 x ≡ b → from_bits binary32 result ≡ sqrtf x }
    ensures finite { result < 255 * 2 ^ 23 }
{
    root_bits(digits(b))
}

// The square root of x, as IEEE 754 has it, rounded to nearest.
pub fn sqrtf(x: f32) -> f32
    ensures nearest { IsRoot x result }
    ensures is { result ≡ sqrtf x }
{
    if x > 0.0 {
        let b = f32::to_bits(x);
        if b < INFINITY_BITS {
            f32::from_bits(positive_root(b))
        } else {
            x
        }
    } else if x == 0.0 {
        x
    } else {
        f32::NAN
    }
}

// The same root, for a number that is often next to 1: there it lies half way to 1, to the last digit.
pub fn sqrtf_near_one(x: f32) -> f32
    ensures { result ≡ sqrtf x }
{
    if x > 0.0 {
        let b = f32::to_bits(x);
        if (b / NEAR_ONE + 1) / 2 == UPPER_ONE_BITS {
            return f32::from_bits(b / 2 + HALF_ONE_BITS);
        }
    }
    sqrtf(x)
}
