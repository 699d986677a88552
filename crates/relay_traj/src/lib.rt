// Trajectories (001): a jerk-minimizing quintic per axis, a segment of three axes, and the governor that slows the reference clock where the craft falls behind.
#![tactic(auto)]

mod quintic; // quintic.rt: one axis
mod segment; // segment.rt: three axes
mod governor; // governor.rt: the reference clock
mod lent; // lent.rt: the reference clock, lent

pub use governor::{Advanced, RefGovernor, clamp_to, gate_factor};
pub use quintic::{JerkCoeffs, Mended, Quintic, Sample, fin, mended_duration};
pub use segment::{Sample3, Segment3};
