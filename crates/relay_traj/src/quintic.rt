// One axis of a trajectory: the quintic of least jerk between two states, and what it asks at a time (001).
ghost use Rattle.std.specs.Prelude.{◌≡◌};
ghost use Rattle.relay_math.specs.F32.{finite_or};
ghost use Rattle.relay_traj.specs.Quintic.{mended_duration, mend_ends, of_mended, quintic, time_on, eval, jerk_coeffs, peak_abs_jerk};

// A duration that is not finite and above this, in seconds, becomes this.
const SHORTEST: f32 = 1e-3;

// The position c5 t^5 + .. + c1 t + c0, from 0 to t_end seconds. `new` alone answers for finite numbers in it: a caller may hold any.
#[repr(C)]
#[derive(Clone, Copy)]
pub struct Quintic {
    pub c5: f32,
    pub c4: f32,
    pub c3: f32,
    pub c2: f32,
    pub c1: f32,
    pub c0: f32,
    pub t_end: f32,
}

// Position, velocity, acceleration and jerk of one axis at one time.
#[repr(C)]
#[derive(Clone, Copy)]
pub struct Sample {
    pub p: f32,
    pub v: f32,
    pub a: f32,
    pub j: f32,
}

// What `Quintic::new` goes by: the seven numbers of one axis of a leg, mended.
#[derive(Clone, Copy)]
pub struct Mended {
    pub p0: f32,
    pub v0: f32,
    pub a0: f32,
    pub pf: f32,
    pub vf: f32,
    pub af: f32,
    pub t: f32,
}

// The jerk is jc2 t^2 + jc1 t + jc0.
#[repr(C)]
#[derive(Clone, Copy)]
pub struct JerkCoeffs {
    pub jc2: f32,
    pub jc1: f32,
    pub jc0: f32,
}

pub fn fin(x: f32, fallback: f32) -> f32
    ensures { result ≡ finite_or x fallback }
{
    relay_math::finite_or(x, fallback)
}

pub fn mended_duration(t: f32) -> f32
    ensures { result ≡ mended_duration t }
{
    relay_math::above_or(SHORTEST, t, SHORTEST)
}

// A bad end position becomes the start, as that is mended; other bad numbers become 0.
#[tactic(auto, unfolding(crate::specs::Quintic::mend_ends))]
fn mend(p0: f32, v0: f32, a0: f32, pf: f32, vf: f32, af: f32, t: f32) -> Mended
    ensures { result ≡ mend_ends p0 v0 a0 pf vf af t }
{
    let p0 = fin(p0, 0.0);
    Mended {
        p0,
        v0: fin(v0, 0.0),
        a0: fin(a0, 0.0),
        pf: fin(pf, p0),
        vf: fin(vf, 0.0),
        af: fin(af, 0.0),
        t: mended_duration(t),
    }
}

// Where on a segment of t_end seconds the time t is: before it its start, past it its end, and its start for a time that is not finite.
#[tactic(auto, unfolding(crate::specs::Quintic::time_on))]
fn time_on(t: f32, t_end: f32) -> f32
    ensures { result ≡ time_on t t_end }
{
    relay_math::clamp_or(t, 0.0, t_end, 0.0)
}

impl Quintic {
    // Between two ends whose bad numbers are mended first.
    #[tactic(auto, unfolding(crate::specs::Quintic::quintic))]
    pub fn new(p0: f32, v0: f32, a0: f32, pf: f32, vf: f32, af: f32, t: f32) -> Quintic
        ensures { result ≡ quintic p0 v0 a0 pf vf af t }
    {
        Quintic::of_mended(mend(p0, v0, a0, pf, vf, af, t))
    }

    // The closed form of Mueller, Hehn and D'Andrea, both ends given. A route tick calls it on ends that it mended as it read them.
    #[tactic(auto, unfolding(crate::specs::Quintic::of_mended))]
    pub fn of_mended(m: Mended) -> Quintic
        ensures { result ≡ of_mended m }
    {
        let Mended {
            p0,
            v0,
            a0,
            pf,
            vf,
            af,
            t,
        } = m;
        // What is left to do against coasting on at the first acceleration.
        let dp = pf - (p0 + v0 * t + 0.5 * a0 * t * t);
        let dv = vf - (v0 + a0 * t);
        let da = af - a0;
        let t2 = t * t;
        let t3 = t * t * t;
        let t4 = t * t * t * t;
        let t5 = t * t * t * t * t;
        let inv = 1.0 / t5;
        let alpha = inv * (720.0 * dp - 360.0 * t * dv + 60.0 * t2 * da);
        let beta = inv * (-360.0 * t * dp + 168.0 * t2 * dv - 24.0 * t3 * da);
        let gamma = inv * (60.0 * t2 * dp - 24.0 * t3 * dv + 3.0 * t4 * da);
        Quintic {
            c5: fin(alpha / 120.0, 0.0),
            c4: fin(beta / 24.0, 0.0),
            c3: fin(gamma / 6.0, 0.0),
            c2: a0 / 2.0,
            c1: v0,
            c0: p0,
            t_end: t,
        }
    }

    pub fn duration(self) -> f32
        ensures { result ≡ self.t_end }
    {
        self.t_end
    }

    // At a time that is held within 0 to t_end.
    #[tactic(auto, unfolding(crate::specs::Quintic::eval, crate::specs::Quintic::sample_at))]
    pub fn eval(self, t: f32) -> Sample
        ensures { result ≡ eval self t }
    {
        let Quintic {
            c5,
            c4,
            c3,
            c2,
            c1,
            c0,
            t_end,
        } = self;
        let t = time_on(t, t_end);
        let p = ((((c5 * t + c4) * t + c3) * t + c2) * t + c1) * t + c0;
        let v = (((5.0 * c5 * t + 4.0 * c4) * t + 3.0 * c3) * t + 2.0 * c2) * t + c1;
        let a = ((20.0 * c5 * t + 12.0 * c4) * t + 6.0 * c3) * t + 2.0 * c2;
        let j = (60.0 * c5 * t + 24.0 * c4) * t + 6.0 * c3;
        Sample { p, v, a, j }
    }

    pub fn jerk_coeffs(self) -> JerkCoeffs
        ensures { result ≡ jerk_coeffs self }
    {
        JerkCoeffs {
            jc2: 60.0 * self.c5,
            jc1: 24.0 * self.c4,
            jc0: 6.0 * self.c3,
        }
    }

    // The Rust's bound on the size of the jerk over the segment, +infinity where it is not finite. That it is a bound isn't claimed here.
    #[tactic(auto, unfolding(crate::specs::Quintic::peak_abs_jerk))]
    pub fn peak_abs_jerk(self) -> f32
        ensures { result ≡ peak_abs_jerk self }
    {
        let JerkCoeffs { jc2, jc1, jc0 } = self.jerk_coeffs();
        let t = self.t_end;
        let bound = relay_math::fabsf(jc2) * t * t
            + relay_math::fabsf(jc1) * t
            + relay_math::fabsf(jc0);
        fin(bound, f32::INFINITY)
    }
}
