// The geometric attitude controller on SO(3) and the simplex shield (000). The Rust's one file has its sections in the order vectors, attitude,
// controller, set, shield. Each is a file here; `lent` is ours. The lists below go by the alphabet.
#![tactic(auto)]

mod attitude; // attitude.rt: attitudes from quaternions, axes and headings
mod controller; // controller.rt: errors, torques and rates
mod lent; // lent.rt: the shield's step over a lent shield
mod set; // set.rt: the recoverable set and its margin
mod shield; // shield.rt: the simplex shield, which picks the planner's command or the fallback
mod vectors; // vectors.rt: vectors and 3x3 matrices

pub use attitude::{
    Thrust, attitude_on, desired_attitude, feedforward_on, flatness_omega_ff, quat_to_rotmat,
    thrust_attitude, thrust_axis_ned, thrust_of,
};
pub use controller::{GeoAtt, GeoGains};
pub use lent::Picked;
pub use set::RecoverableSet;
pub use shield::{Shielded, SimplexShield, Thresholds, mend};
pub use vectors::{
    GRAVITY_NED, Mat3, Quat, cross, dot, identity3, matmul3, norm, normalize, sanitise3,
    transpose3, vee,
};
