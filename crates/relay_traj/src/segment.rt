// Three axes of a trajectory, each on its own (001).
ghost use Rattle.std.specs.Prelude.{◌≡◌};
ghost use Rattle.relay_traj.specs.Segment.{segment, rest_to_rest, duration, eval3, peak_abs_jerk3};

use crate::quintic::Quintic;
use relay_math::Vec3;

// `self.0`, `self.1`, `self.2` are the Rust's `axes[0]`, `axes[1]`, `axes[2]`.
#[repr(C)]
#[derive(Clone, Copy)]
pub struct Segment3(pub Quintic, pub Quintic, pub Quintic);

#[repr(C)]
#[derive(Clone, Copy)]
pub struct Sample3 {
    pub pos: Vec3,
    pub vel: Vec3,
    pub acc: Vec3,
    pub jerk: Vec3,
}

impl Segment3 {
    #[tactic(auto, unfolding(crate::specs::Segment::segment))]
    pub fn new(p0: Vec3, v0: Vec3, a0: Vec3, pf: Vec3, vf: Vec3, af: Vec3, t: f32) -> Segment3
        ensures { result ≡ segment p0 v0 a0 pf vf af t }
    {
        Segment3(
            Quintic::new(p0.0, v0.0, a0.0, pf.0, vf.0, af.0, t),
            Quintic::new(p0.1, v0.1, a0.1, pf.1, vf.1, af.1, t),
            Quintic::new(p0.2, v0.2, a0.2, pf.2, vf.2, af.2, t),
        )
    }

    #[tactic(auto, unfolding(crate::specs::Segment::rest_to_rest))]
    pub fn rest_to_rest(from: Vec3, to: Vec3, t: f32) -> Segment3
        ensures { result ≡ rest_to_rest from to t }
    {
        let rest = Vec3(0.0, 0.0, 0.0);
        Segment3::new(from, rest, rest, to, rest, rest, t)
    }

    // The first axis's, as in the Rust: `new` gives all three the same.
    pub fn duration(self) -> f32
        ensures { result ≡ duration self }
    {
        self.0.duration()
    }

    #[tactic(auto, unfolding(crate::specs::Segment::eval3))]
    pub fn eval(self, t: f32) -> Sample3
        ensures { result ≡ eval3 self t }
    {
        let x = self.0.eval(t);
        let y = self.1.eval(t);
        let z = self.2.eval(t);
        Sample3 {
            pos: Vec3(x.p, y.p, z.p),
            vel: Vec3(x.v, y.v, z.v),
            acc: Vec3(x.a, y.a, z.a),
            jerk: Vec3(x.j, y.j, z.j),
        }
    }

    #[tactic(auto, unfolding(crate::specs::Segment::peak_abs_jerk3))]
    pub fn peak_abs_jerk(self) -> Vec3
        ensures { result ≡ peak_abs_jerk3 self }
    {
        Vec3(
            self.0.peak_abs_jerk(),
            self.1.peak_abs_jerk(),
            self.2.peak_abs_jerk(),
        )
    }
}
