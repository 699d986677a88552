// 001: relay_traj, numbers 100 to 117.
use super::parts::{
    Row, governor_at, put_governor, put_quintic, put_segment, quintic_at, segment_at,
};
use image::leg_at;
use relay_traj::{Advanced, JerkCoeffs, Quintic, RefGovernor, Sample, Sample3, Segment3};
use words::{float_at, put_float, put_three, put_vec, vec_at};

pub(crate) fn answer(n: u32, i: &Row, o: &mut Row) {
    match n {
        100..=105 => quintics(n, i, o),
        106..=110 => segments(n, i, o),
        _ => governors(n, i, o),
    }
}

// A new one takes as many words as it has.
fn quintics(n: u32, i: &Row, o: &mut Row) {
    let q = quintic_at(i);
    match n {
        100 => put_float(o, 0, relay_traj::fin(q.c5, q.c4)),
        101 => put_quintic(o, Quintic::new(q.c5, q.c4, q.c3, q.c2, q.c1, q.c0, q.t_end)),
        102 => put_float(o, 0, q.duration()),
        103 => put_sample(o, q.eval(float_at(i, 7))),
        104 => put_coeffs(o, q.jerk_coeffs()),
        _ => put_float(o, 0, q.peak_abs_jerk()),
    }
}

fn segments(n: u32, i: &Row, o: &mut Row) {
    let l = leg_at(i, 0);
    let s = segment_at(i);
    match n {
        106 => put_segment(o, Segment3::new(l.p0, l.v0, l.a0, l.pf, l.vf, l.af, l.t)),
        107 => put_segment(
            o,
            Segment3::rest_to_rest(vec_at(i, 0), vec_at(i, 3), float_at(i, 6)),
        ),
        108 => put_float(o, 0, s.duration()),
        109 => put_sample3(o, s.eval(float_at(i, 21))),
        _ => put_vec(o, 0, s.peak_abs_jerk()),
    }
}

fn governors(n: u32, i: &Row, o: &mut Row) {
    let g = governor_at(i);
    match n {
        111 => put_float(o, 0, relay_traj::clamp_to(g.s, g.err_lo)),
        112 => put_float(
            o,
            0,
            relay_traj::gate_factor(g.s, g.err_lo, g.err_hi, g.g_min),
        ),
        113 => put_governor(o, RefGovernor::new(g.s, g.err_lo, g.err_hi)),
        114 => put_float(o, 0, g.gate(float_at(i, 4))),
        115 => put_advanced(o, g.advance(float_at(i, 4), float_at(i, 5))),
        116 => put_float(o, 0, g.time()),
        _ => put_governor(o, g.reset()),
    }
}

fn put_sample(o: &mut Row, s: Sample) {
    put_three(o, 0, s.p, s.v, s.a);
    put_float(o, 3, s.j);
}

fn put_coeffs(o: &mut Row, c: JerkCoeffs) {
    put_three(o, 0, c.jc2, c.jc1, c.jc0);
}

fn put_sample3(o: &mut Row, s: Sample3) {
    put_vec(o, 0, s.pos);
    put_vec(o, 3, s.vel);
    put_vec(o, 6, s.acc);
    put_vec(o, 9, s.jerk);
}

fn put_advanced(o: &mut Row, a: Advanced) {
    put_governor(o, a.governor);
    put_float(o, 4, a.time);
}
