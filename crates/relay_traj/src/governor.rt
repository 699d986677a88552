// The reference governor (001): a clock for the trajectory that runs slower as the craft falls behind.
ghost use Rattle.std.specs.Prelude.{◌≡◌};
ghost use Rattle.relay_traj.specs.Governor.{low_end, clamp_to, ramp, no_band, gate_factor, governor, gate, advance, reset};

// s is the governed time in seconds; the gate falls from 1 to g_min as the tracking error goes from err_lo to err_hi.
#[repr(C)]
#[derive(Clone, Copy)]
pub struct RefGovernor {
    pub s: f32,
    pub err_lo: f32,
    pub err_hi: f32,
    pub g_min: f32,
}

// What `advance` leaves, and the time that it returns.
#[repr(C)]
#[derive(Clone, Copy)]
pub struct Advanced {
    pub governor: RefGovernor,
    pub time: f32,
}

// A lower end outside 0..1, or a NaN, counts as 0.
fn low_end(lo: f32) -> f32
    ensures { result ≡ low_end lo }
{
    if 0.0 <= lo && lo <= 1.0 { lo } else { 0.0 }
}

// x put into lo..1, a non-finite one as lo.
#[tactic(auto, unfolding(crate::specs::Governor::clamp_to))]
pub fn clamp_to(x: f32, lo: f32) -> f32
    ensures { result ≡ clamp_to x lo }
{
    let lo = low_end(lo);
    if !relay_math::is_finite(x) || x < lo {
        lo
    } else if x > 1.0 {
        1.0
    } else {
        x
    }
}

// The gate before it is clamped, for a band that is one: 1 up to lo, g_min from hi on, and a straight line between.
fn ramp(err: f32, lo: f32, hi: f32, g_min: f32) -> f32
    ensures { result ≡ ramp err lo hi g_min }
{
    if err <= lo {
        1.0
    } else if err >= hi {
        g_min
    } else {
        let frac = (err - lo) / (hi - lo);
        1.0 - frac * (1.0 - g_min)
    }
}

// An error or an end of the band is not finite, or the band has no width.
fn no_band(err: f32, lo: f32, hi: f32) -> bool
    ensures { result ≡ no_band err lo hi }
{
    !relay_math::is_finite(err)
        || !relay_math::is_finite(lo)
        || !relay_math::is_finite(hi)
        || hi <= lo
}

// With no band the gate is g_min: the clock slows down.
#[tactic(auto, unfolding(crate::specs::Governor::gate_factor))]
pub fn gate_factor(err: f32, lo: f32, hi: f32, g_min: f32) -> f32
    ensures { result ≡ gate_factor err lo hi g_min }
{
    let g_min = clamp_to(g_min, 0.0);
    if no_band(err, lo, hi) {
        g_min
    } else {
        let g = ramp(err, lo, hi, g_min);
        clamp_to(g, g_min)
    }
}

impl RefGovernor {
    pub fn new(err_lo: f32, err_hi: f32, g_min: f32) -> RefGovernor
        ensures { result ≡ governor err_lo err_hi g_min }
    {
        RefGovernor {
            s: 0.0,
            err_lo,
            err_hi,
            g_min,
        }
    }

    // Which part of dt the clock moves by, 0 to 1.
    #[tactic(auto, unfolding(crate::specs::Governor::gate))]
    pub fn gate(self, track_err: f32) -> f32
        ensures { result ≡ gate self track_err }
    {
        gate_factor(track_err, self.err_lo, self.err_hi, self.g_min)
    }

    // The clock after dt, moved by the part that the gate lets through. A dt that is not finite and above 0 moves nothing.
    #[tactic(auto, unfolding(crate::specs::Governor::advance))]
    pub fn advance(self, track_err: f32, dt: f32) -> Advanced
        ensures { result ≡ advance self track_err dt }
    {
        let dt = relay_math::above_or(0.0, dt, 0.0);
        let s = self.s + self.gate(track_err) * dt;
        Advanced {
            governor: RefGovernor { s, ..self },
            time: s,
        }
    }

    pub fn time(self) -> f32
        ensures { result ≡ self.s }
    {
        self.s
    }

    pub fn reset(self) -> RefGovernor
        ensures { result ≡ reset self }
    {
        RefGovernor { s: 0.0, ..self }
    }
}
