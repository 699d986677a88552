// The joint tick over values (added by document 01): the state, set-up, and the tick in stages. Crate `calls` has the bytes.
#![tactic(auto)]

mod profile; // profile.rt: which rules a tick flies by
mod setup; // setup.rt: the first state, and the exchange of its segment
mod stages; // stages.rt: the tick, stage by stage
mod state; // state.rt: what the image, the inputs and the answer hold

pub use profile::{Profile, UnknownProfile, is_profile, profile_of, profile_word};
pub use setup::{exchange, segment_of, set_up};
pub use stages::{
    Prepared, Reference, Ticked, guide_pick_follow, prepare, reference_at, sample_at,
};
pub use state::{Answer, Fixed, Leg, Moving, SetUp, State, TickInput};
