// Words, floats, vectors and plain bytes into bytes. A written run says which words it put where, and so that every other byte stays.
ghost use Rattle.std.specs.Prelude.{◌≡◌, ◌∷◌, [], ◌+◌, ◌*◌, ◌≤◌, length, take, drop};
ghost use Rattle.std.proofs.lemmas.List.Edits.{sets};
ghost use Rattle.words.specs.Words.{bits, flag, words_of, floats_of_vec, bytes_of, canons, Put};
ghost use Rattle.words.specs.Inner.{Plain};

use super::read::{float_at, four_bytes};
use relay_math::Vec3;

// A word from any byte on.
fn put_four(bytes: &mut [u8], at: usize, w: u32)
    requires { at + 4 ≤ length bytes.old }
    ensures { bytes.new ≡ sets bytes.old at (bytes_of (w ∷ [])) }
{
    let [a, b, c, d] = w.to_le_bytes();
    bytes[at] = a;
    bytes[at + 1] = b;
    bytes[at + 2] = c;
    bytes[at + 3] = d;
}

pub fn put_word(bytes: &mut [u8], k: usize, w: u32)
    requires { 4 * k + 4 ≤ length bytes.old }
    ensures { Put bytes.old k (w ∷ []) bytes.new }
{
    put_four(bytes, 4 * k, w);
}

// The NaN is always written as 0x7fc0_0000: compiled code may hold any NaN pattern, and `to_bits` is undefined there.
pub fn bits_of(x: f32) -> u32
    ensures { result ≡ bits x }
{
    if x != x { 0x7fc0_0000 } else { f32::to_bits(x) }
}

pub fn put_flag(bytes: &mut [u8], k: usize, yes: bool)
    requires { 4 * k + 4 ≤ length bytes.old }
    ensures { Put bytes.old k (flag yes ∷ []) bytes.new }
{
    put_word(bytes, k, u32::from(yes))
}

pub fn put_float(bytes: &mut [u8], k: usize, x: f32)
    requires { 4 * k + 4 ≤ length bytes.old }
    ensures { Put bytes.old k (bits x ∷ []) bytes.new }
{
    put_word(bytes, k, bits_of(x))
}

// Three floats side by side. Runs are written by threes, which keeps each caller's proof small.
pub fn put_three(bytes: &mut [u8], k: usize, x: f32, y: f32, z: f32)
    requires { 4 * k + 12 ≤ length bytes.old }
    ensures { Put bytes.old k (bits x ∷ bits y ∷ bits z ∷ []) bytes.new }
{
    put_float(bytes, k, x);
    put_float(bytes, k + 1, y);
    put_float(bytes, k + 2, z);
}

pub fn put_vec(bytes: &mut [u8], k: usize, v: Vec3)
    requires { 4 * k + 12 ≤ length bytes.old }
    ensures { Put bytes.old k (words_of (floats_of_vec v)) bytes.new }
{
    put_three(bytes, k, v.0, v.1, v.2);
}

// Each word as its float would be written: a NaN's pattern becomes 0x7fc0_0000. Where no word is one, all stand so already and none is written.
pub fn make_canonical(bytes: &mut [u8], count: usize, plain: bool)
    requires fact_1 { length bytes.old ≡ 4 * count }
    requires fact_2 { Plain plain bytes.old }
    ensures { bytes.new ≡ bytes_of (canons bytes.old 0 count) }
{
    if plain {
        return;
    }
    for k in 0..count {
        put_float(bytes, k, float_at(bytes, k));
    }
}

// All are read before one is written, so that they are one load and one store.
fn put_sixteen(bytes: &mut [u8], at: usize, from: &[u8], i: usize)
    requires { (at + 16 ≤ length bytes.old) × (i + 16 ≤ length from.now) }
    ensures { bytes.new ≡ sets bytes.old at (take 16 (drop i from.now)) }
{
    let a = four_bytes(from, i);
    let b = four_bytes(from, i + 4);
    let c = four_bytes(from, i + 8);
    let d = four_bytes(from, i + 12);
    put_four(bytes, at, a);
    put_four(bytes, at + 4, b);
    put_four(bytes, at + 8, c);
    put_four(bytes, at + 12, d);
}

// Bytes as they stand, from any byte on: by sixteens, then by fours, then one by one. `copy_from_slice` over all of them would be `memmove`, which include/fosavalo.h does
// not ask for.
pub fn put_bytes(bytes: &mut [u8], at: usize, from: &[u8])
    requires { at + length from.now ≤ length bytes.old }
    ensures { bytes.new ≡ sets bytes.old at from.now }
{
    let mut i = 0;
    while i + 16 <= from.len() {
        put_sixteen(bytes, at + i, from, i);
        i += 16;
    }
    while i + 4 <= from.len() {
        put_four(bytes, at + i, four_bytes(from, i));
        i += 4;
    }
    for j in i..from.len() {
        bytes[at + j] = from[j];
    }
}
