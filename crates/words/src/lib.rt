// Little-endian words in lent bytes: u32, and f32 as their bits. A word is named by its number, so word k is the bytes 4k to 4k + 3.
#![tactic(auto)]

mod read; // read.rt: words, floats and vectors out of bytes
mod view; // view.rt: lent bytes as words, with what a scan of them has found
mod write; // write.rt: the same into bytes

pub use read::{all_plain, finite_at, float_at, float_of, four_bytes, vec_at, word_at};
pub use view::Words;
pub use write::{
    bits_of, make_canonical, put_bytes, put_flag, put_float, put_three, put_vec, put_word,
};
