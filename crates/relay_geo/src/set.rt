// The recoverable set of the geometric controller: the states from which Lee 2010 (Prop. 1) shows that it brings both errors to zero.
ghost use Rattle.std.specs.Prelude.{◌≡◌};
ghost use Rattle.relay_geo.specs.Set.{minus_infinity, unknown, smaller, new_set, margin, recoverable};

use relay_math::{finite_or, is_finite};

#[repr(C)]
#[derive(Clone, Copy)]
pub struct RecoverableSet {
    pub k_r: f32, // attitude gain of the Lyapunov function
    pub lambda_j: f32, // largest eigenvalue of the body's inertia
    pub psi_max: f32, // ceiling of psi, below 2
}

fn minus_infinity() -> f32
    ensures { result ≡ minus_infinity }
{
    f32::from_bits(0xff80_0000)
}

// The margin cannot be told.
fn unknown(psi: f32, e_omega_sq: f32, lambda_j: f32) -> bool
    ensures { result ≡ unknown psi e_omega_sq lambda_j }
{
    if !is_finite(psi) {
        return true;
    }
    if !is_finite(e_omega_sq) {
        return true;
    }
    if !is_finite(lambda_j) {
        return true;
    }
    lambda_j <= 0.0
}

// One strict comparison and no second: the rate part wins a tie, and also wins where the attitude part is a NaN.
fn smaller(psi_margin: f32, rate_margin: f32) -> f32
    ensures { result ≡ smaller psi_margin rate_margin }
{
    if psi_margin < rate_margin {
        psi_margin
    } else {
        rate_margin
    }
}

impl RecoverableSet {
    pub fn new(k_r: f32, lambda_j: f32, psi_max: f32) -> Self
        ensures { result ≡ new_set k_r lambda_j psi_max }
    {
        Self {
            k_r: k_r,
            lambda_j: lambda_j,
            psi_max: psi_max,
        }
    }

    // How far inside the set the state is: at or above zero exactly if it is recoverable, and minus infinity where that cannot be told.
    pub fn margin(self, psi: f32, e_omega_sq: f32) -> f32
        ensures { result ≡ margin self psi e_omega_sq }
    {
        if unknown(psi, e_omega_sq, self.lambda_j) {
            return minus_infinity();
        }
        let psi_margin = self.psi_max - psi;
        let rate_cap = 2.0 * self.k_r * (2.0 - psi) / self.lambda_j;
        let rate_margin = rate_cap - e_omega_sq;
        finite_or(smaller(psi_margin, rate_margin), minus_infinity())
    }

    // Is the state inside the set?
    pub fn recoverable(self, psi: f32, e_omega_sq: f32) -> bool
        ensures { result ≡ recoverable self psi e_omega_sq }
    {
        self.margin(psi, e_omega_sq) >= 0.0
    }
}
