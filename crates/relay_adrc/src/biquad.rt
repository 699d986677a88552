// Second-order low-pass of one axis (RBJ's coefficients, Q = 1/√2), and of the gyro. The code is direct form I, though the Rust's comment has another.
ghost use Rattle.std.specs.Prelude.{◌≡◌};
ghost use Rattle.relay_adrc.specs.Biquad.{passes_through, passthrough, lowpass, biquad_filter, gyro_new, gyro_filter};

use relay_math::{BodyRate, Vec3};

// Rust's PI and FRAC_1_SQRT_2.
const PI: f32 = 3.14159274;

const FRAC_1_SQRT_2: f32 = 0.70710677;

#[repr(C)]
#[derive(Clone, Copy)]
pub struct Biquad {
    pub b0: f32,
    pub b1: f32,
    pub b2: f32,
    pub a1: f32,
    pub a2: f32,
    pub x1: f32, // the last two inputs, the later first
    pub x2: f32,
    pub y1: f32, // the last two outputs
    pub y2: f32,
}

#[repr(C)]
#[derive(Clone, Copy)]
pub struct Filtered {
    pub biquad: Biquad,
    pub y: f32,
}

// Whether `lowpass` makes no filter of fc and fs. Set-up refuses by it (request Twelve).
pub fn passes_through(fc: f32, fs: f32) -> bool
    ensures { result ≡ passes_through fc fs }
{
    !(fc > 0.0) || (!(fs > 0.0) || fc >= 0.5 * fs)
}

impl Biquad {
    // The cut-off fc and the sample rate fs in Hz. The angle may overflow to infinity, where sine and cosine are 0: the Rust does so too.
    #[tactic(auto, unfolding(crate::specs::Biquad::lowpass, crate::specs::Biquad::lowpass_at))]
    pub fn lowpass(fc: f32, fs: f32) -> Self
        ensures { result ≡ lowpass fc fs }
    {
        if passes_through(fc, fs) {
            return Biquad::passthrough();
        }
        let w0 = 2.0 * PI * fc / fs;
        let sw = relay_math::sinf(w0);
        let cw = relay_math::cosf(w0);
        let q = FRAC_1_SQRT_2;
        let alpha = sw / (2.0 * q);
        let a0 = 1.0 + alpha;
        Biquad {
            b0: ((1.0 - cw) * 0.5) / a0,
            b1: (1.0 - cw) / a0,
            b2: ((1.0 - cw) * 0.5) / a0,
            a1: (-2.0 * cw) / a0,
            a2: (1.0 - alpha) / a0,
            x1: 0.0,
            x2: 0.0,
            y1: 0.0,
            y2: 0.0,
        }
    }

    pub fn passthrough() -> Self
        ensures { result ≡ passthrough }
    {
        Biquad {
            b0: 1.0,
            b1: 0.0,
            b2: 0.0,
            a1: 0.0,
            a2: 0.0,
            x1: 0.0,
            x2: 0.0,
            y1: 0.0,
            y2: 0.0,
        }
    }

    // One step. A non-finite input or output counts as 0.
    #[tactic(auto, unfolding(crate::specs::Biquad::biquad_filter))]
    pub fn filter(self, x: f32) -> Filtered
        ensures { result ≡ biquad_filter self x }
    {
        let x = relay_math::finite_or(x, 0.0);
        let y = self.b0 * x + self.b1 * self.x1 + self.b2 * self.x2
            - self.a1 * self.y1
            - self.a2 * self.y2;
        let y = relay_math::finite_or(y, 0.0);
        Filtered {
            biquad: Biquad {
                x1: x,
                x2: self.x1,
                y1: y,
                y2: self.y1,
                ..self
            },
            y,
        }
    }
}

#[repr(C)]
#[derive(Clone, Copy)]
pub struct GyroLpf {
    pub roll: Biquad,
    pub pitch: Biquad,
    pub yaw: Biquad,
}

#[repr(C)]
#[derive(Clone, Copy)]
pub struct GyroFiltered {
    pub lpf: GyroLpf,
    pub rate: BodyRate,
}

impl GyroLpf {
    #[tactic(auto, unfolding(crate::specs::Biquad::gyro_new))]
    pub fn new(fc: f32, fs: f32) -> Self
        ensures { result ≡ gyro_new fc fs }
    {
        let b = Biquad::lowpass(fc, fs);
        GyroLpf {
            roll: b,
            pitch: b,
            yaw: b,
        }
    }

    #[tactic(auto, unfolding(crate::specs::Biquad::gyro_filter))]
    pub fn filter(self, gyro: BodyRate) -> GyroFiltered
        ensures { result ≡ gyro_filter self gyro }
    {
        let g = gyro.0;
        let roll = self.roll.filter(g.0);
        let pitch = self.pitch.filter(g.1);
        let yaw = self.yaw.filter(g.2);
        GyroFiltered {
            lpf: GyroLpf {
                roll: roll.biquad,
                pitch: pitch.biquad,
                yaw: yaw.biquad,
            },
            rate: BodyRate(Vec3(roll.y, pitch.y, yaw.y)),
        }
    }
}
