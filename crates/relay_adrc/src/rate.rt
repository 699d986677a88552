// Three axes of ADRC: roll, pitch, yaw. A measured and a wanted body rate go in, a torque comes out.
ghost use Rattle.std.specs.Prelude.{◌≡◌};
ghost use Rattle.relay_adrc.specs.Rate.{rate_new, falcon_quad, rate_tick, rate_reset, rate_set_delivered_fraction, rate_disturbance};

use crate::axis::AdrcAxis;
use crate::gains::AdrcGains;
use relay_math::{BodyRate, Torque, Vec3};

#[repr(C)]
#[derive(Clone, Copy)]
pub struct AdrcRate {
    pub roll: AdrcAxis,
    pub pitch: AdrcAxis,
    pub yaw: AdrcAxis,
}

#[repr(C)]
#[derive(Clone, Copy)]
pub struct RateTick {
    pub rate: AdrcRate,
    pub torque: Torque,
}

impl AdrcRate {
    pub fn new(roll: AdrcGains, pitch: AdrcGains, yaw: AdrcGains) -> Self
        ensures { result ≡ rate_new roll pitch yaw }
    {
        AdrcRate {
            roll: AdrcAxis::new(roll),
            pitch: AdrcAxis::new(pitch),
            yaw: AdrcAxis::new(yaw),
        }
    }

    // The quad's tuning: yaw has a slower controller, since its torque comes late from the rotors' drag.
    pub fn falcon_quad() -> Self
        ensures { result ≡ falcon_quad }
    {
        AdrcRate::new(
            AdrcGains::with_tau(40.0, 12.0, 60.0, 0.0125),
            AdrcGains::with_tau(40.0, 12.0, 60.0, 0.0125),
            AdrcGains::with_tau(30.0, 3.0, 18.0, 0.025),
        )
    }

    #[tactic(auto, unfolding(crate::specs::Rate::rate_tick))]
    pub fn tick(self, omega_meas: BodyRate, omega_d: BodyRate, dt: f32) -> RateTick
        ensures { result ≡ rate_tick self omega_meas omega_d dt }
    {
        let m = omega_meas.0;
        let d = omega_d.0;
        let roll = self.roll.tick(m.0, d.0, dt);
        let pitch = self.pitch.tick(m.1, d.1, dt);
        let yaw = self.yaw.tick(m.2, d.2, dt);
        RateTick {
            rate: AdrcRate {
                roll: roll.axis,
                pitch: pitch.axis,
                yaw: yaw.axis,
            },
            torque: Torque(Vec3(roll.u, pitch.u, yaw.u)),
        }
    }

    pub fn reset(self) -> Self
        ensures { result ≡ rate_reset self }
    {
        AdrcRate {
            roll: self.roll.reset(),
            pitch: self.pitch.reset(),
            yaw: self.yaw.reset(),
        }
    }

    // One fraction for each axis: an allocator that gives up yaw first delivers the others whole.
    pub fn set_delivered_fraction(self, frac: Vec3) -> Self
        ensures { result ≡ rate_set_delivered_fraction self frac }
    {
        AdrcRate {
            roll: self.roll.set_delivered_fraction(frac.0),
            pitch: self.pitch.set_delivered_fraction(frac.1),
            yaw: self.yaw.set_delivered_fraction(frac.2),
        }
    }

    pub fn disturbance(self) -> Vec3
        ensures { result ≡ rate_disturbance self }
    {
        Vec3(
            self.roll.disturbance(),
            self.pitch.disturbance(),
            self.yaw.disturbance(),
        )
    }
}
