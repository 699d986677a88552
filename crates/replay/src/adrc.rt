// 002: relay_adrc, numbers 200 to 230.
use super::parts::{
    Row, adrc_gains_at, axis_at, biquad_at, body_rate_at, filter_at, filter3_at, lpf_at,
    put_adrc_gains, put_axis, put_biquad, put_filter, put_filter3, put_lpf, put_rate, put_yes,
    rate_at,
};
use relay_adrc::{
    AdrcAxis, AdrcGains, AdrcRate, AxisTick, Biquad, CommandFilter, CommandFilter3, Filtered,
    GyroFiltered, GyroLpf, RateTick, Stepped, Stepped3,
};
use words::{float_at, put_float, put_vec, vec_at};

pub(crate) fn answer(n: u32, i: &Row, o: &mut Row) {
    match n {
        200..=204 => gains(n, i, o),
        205..=210 => axes(n, i, o),
        211..=215 => lowpasses(n, i, o),
        216..=221 => rates(n, i, o),
        222..=227 => filters(n, i, o),
        _ => three_filters(n, i, o),
    }
}

fn gains(n: u32, i: &Row, o: &mut Row) {
    let g = adrc_gains_at(i, 0);
    match n {
        200 => put_adrc_gains(o, AdrcGains::new(g.omega_o, g.omega_c, g.b0)),
        201 => put_adrc_gains(o, AdrcGains::with_tau(g.omega_o, g.omega_c, g.b0, g.tau)),
        202 => put_adrc_gains(
            o,
            AdrcGains::from_bandwidth(g.omega_o, g.omega_c, g.b0, g.tau),
        ),
        203 => put_yes(o, 0, g.well_separated(float_at(i, 4))),
        _ => put_yes(o, 0, g.eso_dt_stable(float_at(i, 4), float_at(i, 5))),
    }
}

fn axes(n: u32, i: &Row, o: &mut Row) {
    let a = axis_at(i);
    match n {
        205 => put_float(o, 0, relay_adrc::sanitise(a.z1, a.z2)),
        206 => put_axis(o, AdrcAxis::new(adrc_gains_at(i, 0))),
        207 => put_float(o, 0, a.disturbance()),
        208 => put_axis_tick(o, a.tick(float_at(i, 9), float_at(i, 10), float_at(i, 11))),
        209 => put_axis(o, a.reset()),
        _ => put_axis(o, a.set_delivered_fraction(float_at(i, 9))),
    }
}

fn lowpasses(n: u32, i: &Row, o: &mut Row) {
    match n {
        211 => put_biquad(o, Biquad::lowpass(float_at(i, 0), float_at(i, 1))),
        212 => put_biquad(o, Biquad::passthrough()),
        213 => put_filtered(o, biquad_at(i).filter(float_at(i, 9))),
        214 => put_lpf(o, GyroLpf::new(float_at(i, 0), float_at(i, 1))),
        _ => put_gyro_filtered(o, lpf_at(i).filter(body_rate_at(i, 27))),
    }
}

fn rates(n: u32, i: &Row, o: &mut Row) {
    match n {
        216 => put_rate(
            o,
            AdrcRate::new(
                adrc_gains_at(i, 0),
                adrc_gains_at(i, 4),
                adrc_gains_at(i, 8),
            ),
        ),
        217 => put_rate(o, AdrcRate::falcon_quad()),
        218 => put_rate_tick(
            o,
            rate_at(i).tick(body_rate_at(i, 27), body_rate_at(i, 30), float_at(i, 33)),
        ),
        219 => put_rate(o, rate_at(i).reset()),
        220 => put_rate(o, rate_at(i).set_delivered_fraction(vec_at(i, 27))),
        _ => put_vec(o, 0, rate_at(i).disturbance()),
    }
}

fn filters(n: u32, i: &Row, o: &mut Row) {
    let f = filter_at(i, 0);
    match n {
        222 => put_float(o, 0, relay_adrc::clamp_sym(f.omega_n, f.max_mag)),
        223 => put_filter(o, 0, CommandFilter::new(f.omega_n, f.max_mag, f.max_rate)),
        224 => put_stepped(o, f.step(float_at(i, 5), float_at(i, 6))),
        225 => put_float(o, 0, f.value()),
        226 => put_float(o, 0, f.rate()),
        _ => put_filter(o, 0, f.reset()),
    }
}

fn three_filters(n: u32, i: &Row, o: &mut Row) {
    let f = filter3_at(i);
    match n {
        228 => put_filter3(
            o,
            CommandFilter3::new(float_at(i, 0), float_at(i, 1), float_at(i, 2)),
        ),
        229 => put_stepped3(o, f.step(body_rate_at(i, 15), float_at(i, 18))),
        _ => put_filter3(o, f.reset()),
    }
}

// The new state, then what is answered.

fn put_axis_tick(o: &mut Row, t: AxisTick) {
    put_axis(o, t.axis);
    put_float(o, 9, t.u);
}

fn put_filtered(o: &mut Row, f: Filtered) {
    put_biquad(o, f.biquad);
    put_float(o, 9, f.y);
}

fn put_gyro_filtered(o: &mut Row, f: GyroFiltered) {
    put_lpf(o, f.lpf);
    put_vec(o, 27, f.rate.0);
}

fn put_rate_tick(o: &mut Row, t: RateTick) {
    put_rate(o, t.rate);
    put_vec(o, 27, t.torque.0);
}

fn put_stepped(o: &mut Row, s: Stepped) {
    put_filter(o, 0, s.filter);
    put_float(o, 5, s.y);
}

fn put_stepped3(o: &mut Row, s: Stepped3) {
    put_filter3(o, s.filter);
    put_vec(o, 15, s.y.0);
}
