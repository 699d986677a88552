// The tuning of one axis. Nothing is mended here: the gains stay raw, and each tick mends what it uses.
ghost use Rattle.std.specs.Prelude.{◌≡◌};
ghost use Rattle.relay_adrc.specs.Gains.{gains_new, with_tau, from_bandwidth, well_separated, eso_dt_stable};

#[repr(C)]
#[derive(Clone, Copy)]
pub struct AdrcGains {
    pub omega_o: f32, // the observer's bandwidth, rad/s
    pub omega_c: f32, // the controller's bandwidth, rad/s
    pub b0: f32, // nominal control effectiveness
    pub tau: f32, // the actuator's time constant, s; 0 takes it as instant
}

impl AdrcGains {
    pub fn new(omega_o: f32, omega_c: f32, b0: f32) -> Self
        ensures { result ≡ gains_new omega_o omega_c b0 }
    {
        AdrcGains {
            omega_o,
            omega_c,
            b0,
            tau: 0.0,
        }
    }

    pub fn with_tau(omega_o: f32, omega_c: f32, b0: f32, tau: f32) -> Self
        ensures { result ≡ with_tau omega_o omega_c b0 tau }
    {
        AdrcGains {
            omega_o,
            omega_c,
            b0,
            tau,
        }
    }

    // The observer is `separation` times as fast as the controller.
    pub fn from_bandwidth(omega_c: f32, separation: f32, b0: f32, tau: f32) -> Self
        ensures { result ≡ from_bandwidth omega_c separation b0 tau }
    {
        AdrcGains {
            omega_o: separation * omega_c,
            omega_c,
            b0,
            tau,
        }
    }

    // Whether the observer is at least `min_ratio` times as fast as the controller; false for a NaN ratio.
    pub fn well_separated(self, min_ratio: f32) -> bool
        ensures { result ≡ well_separated self min_ratio }
    {
        relay_math::is_finite(self.omega_o)
            && relay_math::finite_above(0.0, self.omega_c)
            && self.omega_o >= min_ratio * self.omega_c
    }

    // The upper half of the observer's stability bound at a step of dt; the Rust has no test from below, so a negative omega_o passes.
    pub fn eso_dt_stable(self, dt: f32, margin: f32) -> bool
        ensures { result ≡ eso_dt_stable self dt margin }
    {
        relay_math::is_finite(self.omega_o)
            && relay_math::finite_above(0.0, dt)
            && self.omega_o * dt < 2.0 * margin
    }
}
