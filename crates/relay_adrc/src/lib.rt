// Linear ADRC rate loop, one axis and three; the gyro's low-pass; the command filter (002).
// Every routine is total: any bit pattern of any argument is taken, and what is bad is mended where the Rust mends it.
#![tactic(auto)]

mod gains; // gains.rt: AdrcGains
mod axis; // axis.rt: one axis of ADRC
mod biquad; // biquad.rt: the low-pass of one axis and of the gyro
mod rate; // rate.rt: three axes of ADRC
mod filter; // filter.rt: the command filter

pub use axis::{AdrcAxis, AxisTick, Observed, sanitise};
pub use biquad::{Biquad, Filtered, GyroFiltered, GyroLpf, passes_through};
pub use filter::{CommandFilter, CommandFilter3, Stepped, Stepped3, clamp_sym};
pub use gains::AdrcGains;
pub use rate::{AdrcRate, RateTick};
