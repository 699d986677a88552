// relay_math.
ghost use Rattle.std.specs.Prelude.{◌≡◌};
ghost use Rattle.relay_math.specs.F32.{is_finite, finite_or, fabsf};
ghost use Rattle.relay_math.specs.Sqrt.{sqrtf};
ghost use Rattle.relay_math.specs.Steps.{sinf, cosf, sincos};

#[unsafe(no_mangle)]
pub extern "C" fn probe_sqrtf(x: f32) -> f32
    ensures { result ≡ sqrtf x }
{
    relay_math::sqrtf(x)
}

// Both angles by one reduction: the cosine is the answer, the sine is left behind the reference.
#[unsafe(no_mangle)]
pub extern "C" fn probe_sincos(x: f32, sine: &mut f32) -> f32
    ensures cosine { result ≡ cosf x }
    ensures sine { sine.new ≡ sinf x }
{
    let p = relay_math::sincos(x);
    *sine = p.sine;
    p.cosine
}

#[unsafe(no_mangle)]
pub extern "C" fn probe_fabsf(x: f32) -> f32
    ensures { result ≡ fabsf x }
{
    relay_math::fabsf(x)
}

#[unsafe(no_mangle)]
pub extern "C" fn probe_is_finite(x: f32) -> bool
    ensures { result ≡ is_finite x }
{
    relay_math::is_finite(x)
}

#[unsafe(no_mangle)]
pub extern "C" fn probe_finite_or(x: f32, d: f32) -> f32
    ensures { result ≡ finite_or x d }
{
    relay_math::finite_or(x, d)
}
