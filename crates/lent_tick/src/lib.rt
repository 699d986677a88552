// A tick on lent bytes, wherever its reference comes from (added by document 01): which images it takes, and the steps that a plain tick and a route tick share.
#![tactic(auto)]

mod ends; // ends.rt: what a tick reads before its reference is taken, and what it writes
mod row_four; // row_four.rt: what an unbroken image is
mod tick; // tick.rt: the tick, wherever its reference comes from

pub use ends::{put_state_and_answer, read_and_prepare};
pub use row_four::unbroken;
pub use tick::{right_lengths, tick_toward};
