// The joint tick on lent bytes (added by document 01).
#![tactic(auto)]

mod entry; // entry.rt: set-up, tick and exchange on lent bytes, and what they refuse
mod unread; // unread.rt: row 4 of an image that was not read yet

pub use entry::{exchange, setup, tick, tick_refusal};
