// The operator's desk (request Thirteen of document 02): three sticks, a command filter each, above the flight core. It reads and writes lent bytes, and knows
// the core by what `calls` and `route` promise.
#![tactic(auto)]

mod entry; // entry.rt: set-up, the centre button and the desk ticks on lent bytes
mod filters; // filters.rt: the three filters, and their words

pub use entry::{DeskOutcome, DeskRefusal, centre, desk_number, route_tick, setup, tick};
