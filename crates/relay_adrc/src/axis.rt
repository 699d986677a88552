// One axis of linear ADRC. An observer estimates the rate z1 and all that the nominal plant leaves out, z2; the control tracks the wanted rate and cancels z2.
ghost use Rattle.std.specs.Prelude.{◌≡◌};
ghost use Rattle.relay_math.specs.F32.{finite_or};
ghost use Rattle.relay_adrc.specs.Axis.{mend_dt, mend_b0, lag, axis_new, axis_tick, axis_reset, axis_set_delivered_fraction};
ghost use Rattle.relay_adrc.specs.Inner.{axis_observe, axis_act};

use crate::gains::AdrcGains;

#[repr(C)]
#[derive(Clone, Copy)]
pub struct AdrcAxis {
    pub z1: f32, // the rate's estimate
    pub z2: f32, // the disturbance's estimate
    pub u_prev: f32, // the command of the tick before
    pub u_act: f32, // the command as the actuator's lag lets it through
    pub u_delivered_frac: f32, // how much of u_prev the allocation delivered, 0 to 1
    pub g: AdrcGains,
}

// What the observer sees: the rate, the disturbance, and what the actuator delivers.
#[repr(C)]
#[derive(Clone, Copy)]
pub struct Observed {
    pub z1: f32,
    pub z2: f32,
    pub u_act: f32,
}

#[repr(C)]
#[derive(Clone, Copy)]
pub struct AxisTick {
    pub axis: AdrcAxis,
    pub u: f32,
}

// The step that ADRC and the command filter take for a given dt.
pub(crate) fn mend_dt(dt: f32) -> f32
    ensures { result ≡ mend_dt dt }
{
    relay_math::clamp_or(dt, 1e-4, 0.1, 1e-3)
}

// The control divides by b0: one of size not above 1e-3, or non-finite, becomes 1.
fn mend_b0(b0: f32) -> f32
    ensures { result ≡ mend_b0 b0 }
{
    if relay_math::is_finite(b0) && relay_math::fabsf(b0) > 1e-3 {
        b0
    } else {
        1.0
    }
}

// What the actuator delivers after dt: a first-order lag toward u_delivered, or that at once where tau is too small or bad.
fn lag(u_act: f32, u_delivered: f32, tau: f32, dt: f32) -> f32
    ensures { result ≡ lag u_act u_delivered tau dt }
{
    if relay_math::finite_above(1e-4, tau) {
        u_act + dt * (u_delivered - u_act) / tau
    } else {
        u_delivered
    }
}

pub fn sanitise(x: f32, fallback: f32) -> f32
    ensures { result ≡ finite_or x fallback }
{
    relay_math::finite_or(x, fallback)
}

impl AdrcAxis {
    pub fn new(g: AdrcGains) -> Self
        ensures { result ≡ axis_new g }
    {
        AdrcAxis {
            z1: 0.0,
            z2: 0.0,
            u_prev: 0.0,
            u_act: 0.0,
            u_delivered_frac: 1.0,
            g,
        }
    }

    pub fn disturbance(self) -> f32
        ensures { result ≡ self.z2 }
    {
        self.z2
    }

    // The half of a tick that looks back: the observer's step on what was measured.
    #[tactic(auto, unfolding(crate::specs::Inner::axis_observe))]
    pub fn observe(self, omega_meas: f32, dt: f32) -> Observed
        ensures { result ≡ axis_observe self omega_meas dt }
    {
        let g = self.g;
        let dt = mend_dt(dt);
        let om = sanitise(omega_meas, 0.0);

        let omega_o = relay_math::above_or(0.0, g.omega_o, 10.0);
        let b0 = mend_b0(g.b0);
        let beta1 = 2.0 * omega_o;
        let beta2 = omega_o * omega_o;

        // It is driven by what was delivered of the command of the tick before, not by the command: else a saturated mixer winds z2 up.
        let u_delivered = self.u_prev * self.u_delivered_frac;
        let u_act = sanitise(lag(self.u_act, u_delivered, g.tau, dt), 0.0);

        let e = om - self.z1;
        let z1_next = self.z1 + dt * (self.z2 + b0 * u_act + beta1 * e);
        let z2_next = self.z2 + dt * (beta2 * e);
        Observed {
            z1: sanitise(z1_next, 0.0),
            z2: sanitise(z2_next, 0.0),
            u_act,
        }
    }

    // The half that acts: the command from what was observed and what is wanted.
    #[tactic(auto, unfolding(crate::specs::Inner::axis_act))]
    pub fn act(self, o: Observed, omega_d: f32) -> AxisTick
        ensures { result ≡ axis_act self o omega_d }
    {
        let Observed { z1, z2, u_act } = o;
        let od = sanitise(omega_d, 0.0);
        let kp = relay_math::above_or(0.0, self.g.omega_c, 3.0);
        let b0 = mend_b0(self.g.b0);
        let u = sanitise((kp * (od - z1) - z2) / b0, 0.0);
        AxisTick {
            axis: AdrcAxis {
                z1,
                z2,
                u_prev: u,
                u_act,
                ..self
            },
            u,
        }
    }

    // In two halves, since the first needs nothing of what is wanted: a caller may take it early.
    #[tactic(auto, using(crate::proofs::Ticks::tick_in_halves))]
    pub fn tick(self, omega_meas: f32, omega_d: f32, dt: f32) -> AxisTick
        ensures { result ≡ axis_tick self omega_meas omega_d dt }
    {
        self.act(self.observe(omega_meas, dt), omega_d)
    }

    pub fn reset(self) -> Self
        ensures { result ≡ axis_reset self }
    {
        AdrcAxis::new(self.g)
    }

    // Set after one tick and used in the next, on the command of the first: within 0 to 1, and 1 where the report is non-finite.
    pub fn set_delivered_fraction(self, frac: f32) -> Self
        ensures { result ≡ axis_set_delivered_fraction self frac }
    {
        AdrcAxis {
            u_delivered_frac: relay_math::clamp_or(frac, 0.0, 1.0, 1.0),
            ..self
        }
    }
}
