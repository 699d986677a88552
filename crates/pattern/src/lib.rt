// Patterns with repeats (request Fourteen of document 02): loops that are flown several times, expanded into a route.
#![tactic(auto)]

mod entry; // entry.rt: the call on lent bytes, and what it refuses
mod form; // form.rt: what an item starts with
mod legs; // legs.rt: the legs found, their joins, and the route of them
mod walk; // walk.rt: the walk over items, with repeats inside repeats

pub use entry::expand_into;
