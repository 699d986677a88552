// relay_traj.
ghost use Rattle.std.specs.Prelude.{◌≡◌};
ghost use Rattle.relay_math.specs.F32.{finite_or};
ghost use Rattle.relay_traj.specs.Quintic.{quintic, eval, jerk_coeffs, peak_abs_jerk};
ghost use Rattle.relay_traj.specs.Segment.{segment, rest_to_rest, duration, eval3, peak_abs_jerk3};
ghost use Rattle.relay_traj.specs.Governor.{clamp_to, gate_factor, governor, gate, advance, reset};

use relay_math::Vec3;
use relay_traj::{Advanced, JerkCoeffs, Quintic, RefGovernor, Sample, Sample3, Segment3};

// ---- one axis

#[unsafe(no_mangle)]
pub extern "C" fn probe_fin(x: f32, fallback: f32) -> f32
    ensures { result ≡ finite_or x fallback }
{
    relay_traj::fin(x, fallback)
}

#[unsafe(no_mangle)]
pub extern "C" fn probe_quintic_new(
    p0: f32,
    v0: f32,
    a0: f32,
    pf: f32,
    vf: f32,
    af: f32,
    t: f32,
) -> Quintic
    ensures { result ≡ quintic p0 v0 a0 pf vf af t }
{
    Quintic::new(p0, v0, a0, pf, vf, af, t)
}

#[unsafe(no_mangle)]
pub extern "C" fn probe_quintic_duration(q: Quintic) -> f32
    ensures { result ≡ q.t_end }
{
    q.duration()
}

#[unsafe(no_mangle)]
pub extern "C" fn probe_quintic_eval(q: Quintic, t: f32) -> Sample
    ensures { result ≡ eval q t }
{
    q.eval(t)
}

#[unsafe(no_mangle)]
pub extern "C" fn probe_quintic_jerk_coeffs(q: Quintic) -> JerkCoeffs
    ensures { result ≡ jerk_coeffs q }
{
    q.jerk_coeffs()
}

#[unsafe(no_mangle)]
pub extern "C" fn probe_quintic_peak_abs_jerk(q: Quintic) -> f32
    ensures { result ≡ peak_abs_jerk q }
{
    q.peak_abs_jerk()
}

// ---- three axes

#[unsafe(no_mangle)]
pub extern "C" fn probe_segment3_new(
    p0: Vec3,
    v0: Vec3,
    a0: Vec3,
    pf: Vec3,
    vf: Vec3,
    af: Vec3,
    t: f32,
) -> Segment3
    ensures { result ≡ segment p0 v0 a0 pf vf af t }
{
    Segment3::new(p0, v0, a0, pf, vf, af, t)
}

#[unsafe(no_mangle)]
pub extern "C" fn probe_segment3_rest_to_rest(from: Vec3, to: Vec3, t: f32) -> Segment3
    ensures { result ≡ rest_to_rest from to t }
{
    Segment3::rest_to_rest(from, to, t)
}

#[unsafe(no_mangle)]
pub extern "C" fn probe_segment3_duration(s: Segment3) -> f32
    ensures { result ≡ duration s }
{
    s.duration()
}

#[unsafe(no_mangle)]
pub extern "C" fn probe_segment3_eval(s: Segment3, t: f32) -> Sample3
    ensures { result ≡ eval3 s t }
{
    s.eval(t)
}

#[unsafe(no_mangle)]
pub extern "C" fn probe_segment3_peak_abs_jerk(s: Segment3) -> Vec3
    ensures { result ≡ peak_abs_jerk3 s }
{
    s.peak_abs_jerk()
}

// ---- the governor

#[unsafe(no_mangle)]
pub extern "C" fn probe_clamp_to(x: f32, lo: f32) -> f32
    ensures { result ≡ clamp_to x lo }
{
    relay_traj::clamp_to(x, lo)
}

#[unsafe(no_mangle)]
pub extern "C" fn probe_gate_factor(err: f32, lo: f32, hi: f32, g_min: f32) -> f32
    ensures { result ≡ gate_factor err lo hi g_min }
{
    relay_traj::gate_factor(err, lo, hi, g_min)
}

#[unsafe(no_mangle)]
pub extern "C" fn probe_refgovernor_new(err_lo: f32, err_hi: f32, g_min: f32) -> RefGovernor
    ensures { result ≡ governor err_lo err_hi g_min }
{
    RefGovernor::new(err_lo, err_hi, g_min)
}

#[unsafe(no_mangle)]
pub extern "C" fn probe_refgovernor_gate(g: RefGovernor, track_err: f32) -> f32
    ensures { result ≡ gate g track_err }
{
    g.gate(track_err)
}

#[unsafe(no_mangle)]
pub extern "C" fn probe_refgovernor_advance(g: RefGovernor, track_err: f32, dt: f32) -> Advanced
    ensures { result ≡ advance g track_err dt }
{
    g.advance(track_err, dt)
}

#[unsafe(no_mangle)]
pub extern "C" fn probe_refgovernor_time(g: RefGovernor) -> f32
    ensures { result ≡ g.s }
{
    g.time()
}

#[unsafe(no_mangle)]
pub extern "C" fn probe_refgovernor_reset(g: RefGovernor) -> RefGovernor
    ensures { result ≡ reset g }
{
    g.reset()
}
