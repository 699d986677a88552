// What the image, the two inputs and the answer hold, in the order of document 01's words.
use crate::profile::Profile;
use relay_adrc::{AdrcGains, AdrcRate, GyroLpf};
use relay_geo::{GeoGains, Quat, RecoverableSet};
use relay_math::{BodyRate, Torque, Vec3};
use relay_traj::{RefGovernor, Segment3};

// What ticks never change.
#[repr(C)]
#[derive(Clone, Copy)]
pub struct Fixed {
    pub gains: GeoGains,
    pub set: RecoverableSet,
    pub enter: f32,
    pub exit: f32,
    pub segment: Segment3,
    pub profile: Profile,
}

// What every tick moves on.
#[repr(C)]
#[derive(Clone, Copy)]
pub struct Moving {
    pub engaged: bool,
    pub governor: RefGovernor,
    pub rate: AdrcRate,
    pub lpf: GyroLpf,
}

// Everything that goes from tick to tick.
#[repr(C)]
#[derive(Clone, Copy)]
pub struct State {
    pub fixed: Fixed,
    pub moving: Moving,
}

// One leg as it is given: start, end and duration, before mending.
#[repr(C)]
#[derive(Clone, Copy)]
pub struct Leg {
    pub p0: Vec3,
    pub v0: Vec3,
    pub a0: Vec3,
    pub pf: Vec3,
    pub vf: Vec3,
    pub af: Vec3,
    pub t: f32,
}

// What set-up is given.
#[repr(C)]
#[derive(Clone, Copy)]
pub struct SetUp {
    pub gains: GeoGains,
    pub set: RecoverableSet,
    pub enter: f32,
    pub exit: f32,
    pub err_lo: f32,
    pub err_hi: f32,
    pub g_min: f32,
    pub leg: Leg,
    pub roll: AdrcGains,
    pub pitch: AdrcGains,
    pub yaw: AdrcGains,
    pub fc: f32,
    pub fs: f32,
    pub profile: Profile,
}

// What a tick is given. `agile` is the planner's command, `fraction` how much of the last torque was delivered, axis by axis.
#[repr(C)]
#[derive(Clone, Copy)]
pub struct TickInput {
    pub gyro: BodyRate,
    pub quat: Quat,
    pub track_err: f32,
    pub yaw: f32,
    pub yaw_rate: f32,
    pub dt: f32,
    pub agile: BodyRate,
    pub fraction: Vec3,
}

// What a tick answers. `fallback` is the flag: the command is the fallback's.
#[repr(C)]
#[derive(Clone, Copy)]
pub struct Answer {
    pub torque: Torque,
    pub command: BodyRate,
    pub fallback: bool,
    pub time: f32,
    pub psi: f32,
    pub margin: f32,
}
