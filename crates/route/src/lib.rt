// Routes of several legs (request One of document 02): their form, the leg flown, and a tick on a route in place of the image's segment.
#![tactic(auto)]

mod entry; // entry.rt: the route tick on lent bytes, and what it refuses
mod form; // form.rt: how a route stands in bytes, and which are refused
mod legs; // legs.rt: the leg flown
mod sample; // sample.rt: where the craft should be, on lent bytes

pub use entry::route_tick;
pub use form::{MOST_LEGS, TRAILER_BYTES, legs_meet};
pub use sample::{SAMPLE_BYTES, route_sample};
