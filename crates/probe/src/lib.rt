// The test face: each routine as one call, so that the host can run it beside the Rust. Nothing here is flown.
// A routine that may refuse answers by an `Option`, which no C call can return: here it is a struct with a flag (specs/Answers.antt).
#![tactic(auto)]

mod adrc; // adrc.rt: relay_adrc
mod geo; // geo.rt: relay_geo
mod lent; // lent.rt: the routines over a lent state
mod numbers; // numbers.rt: relay_math
mod pos; // pos.rt: relay_pos
mod traj; // traj.rt: relay_traj
