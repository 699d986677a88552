// The flight log (request Two of document 02): records of one accepted tick each, written into a lent buffer and read back.
#![tactic(auto)]

mod entry; // entry.rt: one record more
mod form; // form.rt: how a log stands in bytes, and which bytes are one
mod into; // into.rt: the count and a record into lent buffers
mod reader; // reader.rt: the lent log and a place in it
mod record; // record.rt: the records of a log, by their place

pub use entry::append;
pub use form::{MOST_RECORDS, RECORD_BYTES, TRAILER_BYTES, is_log};
pub use into::{count_into, record_into};
pub use reader::{Reader, moved, next};
