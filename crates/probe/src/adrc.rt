// relay_adrc.
ghost use Rattle.std.specs.Prelude.{◌≡◌};
ghost use Rattle.relay_math.specs.F32.{finite_or};
ghost use Rattle.relay_adrc.specs.Gains.{gains_new, with_tau, from_bandwidth, well_separated, eso_dt_stable};
ghost use Rattle.relay_adrc.specs.Axis.{axis_new, axis_tick, axis_reset, axis_set_delivered_fraction};
ghost use Rattle.relay_adrc.specs.Biquad.{lowpass, passthrough, biquad_filter, gyro_new, gyro_filter};
ghost use Rattle.relay_adrc.specs.Rate.{rate_new, falcon_quad, rate_tick, rate_reset, rate_set_delivered_fraction, rate_disturbance};
ghost use Rattle.relay_adrc.specs.Filter.{clamp_sym, filter_new, filter_step, filter_reset, filter3_new, filter3_step, filter3_reset};

use relay_adrc::{
    AdrcAxis, AdrcGains, AdrcRate, AxisTick, Biquad, CommandFilter, CommandFilter3, Filtered,
    GyroFiltered, GyroLpf, RateTick, Stepped, Stepped3,
};
use relay_math::{BodyRate, Vec3};

// ---- gains

#[unsafe(no_mangle)]
pub extern "C" fn probe_adrcgains_new(omega_o: f32, omega_c: f32, b0: f32) -> AdrcGains
    ensures { result ≡ gains_new omega_o omega_c b0 }
{
    AdrcGains::new(omega_o, omega_c, b0)
}

#[unsafe(no_mangle)]
pub extern "C" fn probe_adrcgains_with_tau(
    omega_o: f32,
    omega_c: f32,
    b0: f32,
    tau: f32,
) -> AdrcGains
    ensures { result ≡ with_tau omega_o omega_c b0 tau }
{
    AdrcGains::with_tau(omega_o, omega_c, b0, tau)
}

#[unsafe(no_mangle)]
pub extern "C" fn probe_adrcgains_from_bandwidth(
    omega_c: f32,
    separation: f32,
    b0: f32,
    tau: f32,
) -> AdrcGains
    ensures { result ≡ from_bandwidth omega_c separation b0 tau }
{
    AdrcGains::from_bandwidth(omega_c, separation, b0, tau)
}

#[unsafe(no_mangle)]
pub extern "C" fn probe_adrcgains_well_separated(g: AdrcGains, min_ratio: f32) -> bool
    ensures { result ≡ well_separated g min_ratio }
{
    g.well_separated(min_ratio)
}

#[unsafe(no_mangle)]
pub extern "C" fn probe_adrcgains_eso_dt_stable(g: AdrcGains, dt: f32, margin: f32) -> bool
    ensures { result ≡ eso_dt_stable g dt margin }
{
    g.eso_dt_stable(dt, margin)
}

// ---- one axis

#[unsafe(no_mangle)]
pub extern "C" fn probe_sanitise(x: f32, fallback: f32) -> f32
    ensures { result ≡ finite_or x fallback }
{
    relay_adrc::sanitise(x, fallback)
}

#[unsafe(no_mangle)]
pub extern "C" fn probe_adrcaxis_new(g: AdrcGains) -> AdrcAxis
    ensures { result ≡ axis_new g }
{
    AdrcAxis::new(g)
}

#[unsafe(no_mangle)]
pub extern "C" fn probe_adrcaxis_disturbance(a: AdrcAxis) -> f32
    ensures { result ≡ a.z2 }
{
    a.disturbance()
}

#[unsafe(no_mangle)]
pub extern "C" fn probe_adrcaxis_tick(
    a: AdrcAxis,
    omega_meas: f32,
    omega_d: f32,
    dt: f32,
) -> AxisTick
    ensures { result ≡ axis_tick a omega_meas omega_d dt }
{
    a.tick(omega_meas, omega_d, dt)
}

#[unsafe(no_mangle)]
pub extern "C" fn probe_adrcaxis_reset(a: AdrcAxis) -> AdrcAxis
    ensures { result ≡ axis_reset a }
{
    a.reset()
}

#[unsafe(no_mangle)]
pub extern "C" fn probe_adrcaxis_set_delivered_fraction(a: AdrcAxis, frac: f32) -> AdrcAxis
    ensures { result ≡ axis_set_delivered_fraction a frac }
{
    a.set_delivered_fraction(frac)
}

// ---- the low-pass

#[unsafe(no_mangle)]
pub extern "C" fn probe_biquad_lowpass(fc: f32, fs: f32) -> Biquad
    ensures { result ≡ lowpass fc fs }
{
    Biquad::lowpass(fc, fs)
}

#[unsafe(no_mangle)]
pub extern "C" fn probe_biquad_passthrough() -> Biquad
    ensures { result ≡ passthrough }
{
    Biquad::passthrough()
}

#[unsafe(no_mangle)]
pub extern "C" fn probe_biquad_filter(f: Biquad, x: f32) -> Filtered
    ensures { result ≡ biquad_filter f x }
{
    f.filter(x)
}

#[unsafe(no_mangle)]
pub extern "C" fn probe_gyrolpf_new(fc: f32, fs: f32) -> GyroLpf
    ensures { result ≡ gyro_new fc fs }
{
    GyroLpf::new(fc, fs)
}

#[unsafe(no_mangle)]
pub extern "C" fn probe_gyrolpf_filter(f: GyroLpf, gyro: BodyRate) -> GyroFiltered
    ensures { result ≡ gyro_filter f gyro }
{
    f.filter(gyro)
}

// ---- three axes

#[unsafe(no_mangle)]
pub extern "C" fn probe_adrcrate_new(roll: AdrcGains, pitch: AdrcGains, yaw: AdrcGains) -> AdrcRate
    ensures { result ≡ rate_new roll pitch yaw }
{
    AdrcRate::new(roll, pitch, yaw)
}

#[unsafe(no_mangle)]
pub extern "C" fn probe_adrcrate_falcon_quad() -> AdrcRate
    ensures { result ≡ falcon_quad }
{
    AdrcRate::falcon_quad()
}

#[unsafe(no_mangle)]
pub extern "C" fn probe_adrcrate_tick(
    a: AdrcRate,
    omega_meas: BodyRate,
    omega_d: BodyRate,
    dt: f32,
) -> RateTick
    ensures { result ≡ rate_tick a omega_meas omega_d dt }
{
    a.tick(omega_meas, omega_d, dt)
}

#[unsafe(no_mangle)]
pub extern "C" fn probe_adrcrate_reset(a: AdrcRate) -> AdrcRate
    ensures { result ≡ rate_reset a }
{
    a.reset()
}

#[unsafe(no_mangle)]
pub extern "C" fn probe_adrcrate_set_delivered_fraction(a: AdrcRate, frac: Vec3) -> AdrcRate
    ensures { result ≡ rate_set_delivered_fraction a frac }
{
    a.set_delivered_fraction(frac)
}

#[unsafe(no_mangle)]
pub extern "C" fn probe_adrcrate_disturbance(a: AdrcRate) -> Vec3
    ensures { result ≡ rate_disturbance a }
{
    a.disturbance()
}

// ---- the command filter

#[unsafe(no_mangle)]
pub extern "C" fn probe_clamp_sym(x: f32, m: f32) -> f32
    ensures { result ≡ clamp_sym x m }
{
    relay_adrc::clamp_sym(x, m)
}

#[unsafe(no_mangle)]
pub extern "C" fn probe_commandfilter_new(
    omega_n: f32,
    max_mag: f32,
    max_rate: f32,
) -> CommandFilter
    ensures { result ≡ filter_new omega_n max_mag max_rate }
{
    CommandFilter::new(omega_n, max_mag, max_rate)
}

#[unsafe(no_mangle)]
pub extern "C" fn probe_commandfilter_step(f: CommandFilter, u: f32, dt: f32) -> Stepped
    ensures { result ≡ filter_step f u dt }
{
    f.step(u, dt)
}

#[unsafe(no_mangle)]
pub extern "C" fn probe_commandfilter_value(f: CommandFilter) -> f32
    ensures { result ≡ f.y }
{
    f.value()
}

#[unsafe(no_mangle)]
pub extern "C" fn probe_commandfilter_rate(f: CommandFilter) -> f32
    ensures { result ≡ f.yd }
{
    f.rate()
}

#[unsafe(no_mangle)]
pub extern "C" fn probe_commandfilter_reset(f: CommandFilter) -> CommandFilter
    ensures { result ≡ filter_reset f }
{
    f.reset()
}

#[unsafe(no_mangle)]
pub extern "C" fn probe_commandfilter3_new(
    omega_n: f32,
    max_mag: f32,
    max_rate: f32,
) -> CommandFilter3
    ensures { result ≡ filter3_new omega_n max_mag max_rate }
{
    CommandFilter3::new(omega_n, max_mag, max_rate)
}

#[unsafe(no_mangle)]
pub extern "C" fn probe_commandfilter3_step(f: CommandFilter3, u: BodyRate, dt: f32) -> Stepped3
    ensures { result ≡ filter3_step f u dt }
{
    f.step(u, dt)
}

#[unsafe(no_mangle)]
pub extern "C" fn probe_commandfilter3_reset(f: CommandFilter3) -> CommandFilter3
    ensures { result ≡ filter3_reset f }
{
    f.reset()
}
