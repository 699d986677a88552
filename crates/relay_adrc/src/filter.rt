// The command filter: second order, critically damped, with the value and its rate held within limits.
ghost use Rattle.std.specs.Prelude.{◌≡◌};
ghost use Rattle.relay_adrc.specs.Filter.{clamp_sym, filter_new, filter_step, filter_reset, filter3_new, filter3_step, filter3_reset};

use crate::axis::mend_dt;
use relay_math::{BodyRate, Vec3};

// x within -m to m. A limit of +infinity passes x; a NaN or negative limit, and a non-finite x, give 0 (the Rust's comment says the bound).
#[tactic(auto, unfolding(crate::specs::Filter::clamp_sym))]
pub fn clamp_sym(x: f32, m: f32) -> f32
    ensures { result ≡ clamp_sym x m }
{
    let x = relay_math::finite_or(x, 0.0);
    if m.is_nan() || m < 0.0 {
        return 0.0;
    }
    if x > m {
        m
    } else if x < -m {
        -m
    } else {
        x
    }
}

#[repr(C)]
#[derive(Clone, Copy)]
pub struct CommandFilter {
    pub omega_n: f32, // the bandwidth, rad/s
    pub max_mag: f32,
    pub max_rate: f32,
    pub y: f32,
    pub yd: f32,
}

#[repr(C)]
#[derive(Clone, Copy)]
pub struct Stepped {
    pub filter: CommandFilter,
    pub y: f32,
}

impl CommandFilter {
    pub fn new(omega_n: f32, max_mag: f32, max_rate: f32) -> Self
        ensures { result ≡ filter_new omega_n max_mag max_rate }
    {
        CommandFilter {
            omega_n: relay_math::above_or(0.0, omega_n, 1.0),
            max_mag,
            max_rate,
            y: 0.0,
            yd: 0.0,
        }
    }

    // One step, with the value and the rate held within their limits.
    #[tactic(auto, unfolding(crate::specs::Filter::filter_step))]
    pub fn step(self, u: f32, dt: f32) -> Stepped
        ensures { result ≡ filter_step self u dt }
    {
        let dt = mend_dt(dt);
        let u = relay_math::finite_or(u, 0.0);
        let y0 = relay_math::finite_or(self.y, 0.0);
        let yd0 = relay_math::finite_or(self.yd, 0.0);
        let wn = self.omega_n;
        let yd_next = yd0 + dt * (wn * wn * (u - y0) - 2.0 * wn * yd0);
        let yd = clamp_sym(yd_next, self.max_rate);
        let y_next = y0 + dt * yd;
        let y = clamp_sym(y_next, self.max_mag);
        Stepped {
            filter: CommandFilter { y, yd, ..self },
            y,
        }
    }

    pub fn value(self) -> f32
        ensures { result ≡ self.y }
    {
        self.y
    }

    pub fn rate(self) -> f32
        ensures { result ≡ self.yd }
    {
        self.yd
    }

    pub fn reset(self) -> Self
        ensures { result ≡ filter_reset self }
    {
        CommandFilter {
            y: 0.0,
            yd: 0.0,
            ..self
        }
    }
}

#[repr(C)]
#[derive(Clone, Copy)]
pub struct CommandFilter3 {
    pub roll: CommandFilter,
    pub pitch: CommandFilter,
    pub yaw: CommandFilter,
}

#[repr(C)]
#[derive(Clone, Copy)]
pub struct Stepped3 {
    pub filter: CommandFilter3,
    pub y: BodyRate,
}

impl CommandFilter3 {
    pub fn new(omega_n: f32, max_mag: f32, max_rate: f32) -> Self
        ensures { result ≡ filter3_new omega_n max_mag max_rate }
    {
        let f = CommandFilter::new(omega_n, max_mag, max_rate);
        CommandFilter3 {
            roll: f,
            pitch: f,
            yaw: f,
        }
    }

    // A desired body rate, shaped axis by axis.
    #[tactic(auto, unfolding(crate::specs::Filter::filter3_step))]
    pub fn step(self, u: BodyRate, dt: f32) -> Stepped3
        ensures { result ≡ filter3_step self u dt }
    {
        let w = u.0;
        let roll = self.roll.step(w.0, dt);
        let pitch = self.pitch.step(w.1, dt);
        let yaw = self.yaw.step(w.2, dt);
        Stepped3 {
            filter: CommandFilter3 {
                roll: roll.filter,
                pitch: pitch.filter,
                yaw: yaw.filter,
            },
            y: BodyRate(Vec3(roll.y, pitch.y, yaw.y)),
        }
    }

    pub fn reset(self) -> Self
        ensures { result ≡ filter3_reset self }
    {
        CommandFilter3 {
            roll: self.roll.reset(),
            pitch: self.pitch.reset(),
            yaw: self.yaw.reset(),
        }
    }
}
