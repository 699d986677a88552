// 000: relay_geo, numbers 0 to 31.
use super::parts::{
    Row, body_rate_at, gains_at, mat_at, put_gains, put_mat, put_set, put_shield, put_yes, quat_at,
    set_at, shield_at,
};
use relay_geo::{GeoAtt, GeoGains, Mat3, RecoverableSet, Shielded, SimplexShield};
use relay_math::{BodyRate, Vec3};
use words::{float_at, put_float, put_vec, vec_at};

pub(crate) fn answer(n: u32, i: &Row, o: &mut Row) {
    match n {
        0..=9 => vectors(n, i, o),
        10..=15 => attitudes(n, i, o),
        16..=24 => controls(n, i, o),
        _ => shields(n, i, o),
    }
}

fn vectors(n: u32, i: &Row, o: &mut Row) {
    match n {
        0 => put_vec(o, 0, relay_geo::GRAVITY_NED),
        1 => put_vec(o, 0, relay_geo::cross(vec_at(i, 0), vec_at(i, 3))),
        2 => put_float(o, 0, relay_geo::dot(vec_at(i, 0), vec_at(i, 3))),
        3 => put_float(o, 0, relay_geo::norm(vec_at(i, 0))),
        4 => put_direction(o, relay_geo::normalize(vec_at(i, 0))),
        5 => put_mat(o, 0, relay_geo::identity3()),
        6 => put_mat(o, 0, relay_geo::transpose3(mat_at(i, 0))),
        7 => put_mat(o, 0, relay_geo::matmul3(mat_at(i, 0), mat_at(i, 9))),
        8 => put_vec(o, 0, relay_geo::vee(mat_at(i, 0))),
        _ => put_vec(o, 0, relay_geo::sanitise3(vec_at(i, 0))),
    }
}

fn attitudes(n: u32, i: &Row, o: &mut Row) {
    let a = vec_at(i, 0);
    match n {
        10 => put_mat(o, 0, relay_geo::quat_to_rotmat(quat_at(i, 0))),
        11 => put_attitude(o, relay_geo::desired_attitude(a, float_at(i, 3))),
        12 => put_direction(o, relay_geo::thrust_axis_ned(a)),
        13 => put_attitude(o, relay_geo::thrust_attitude(a, float_at(i, 3))),
        14 => put_ahead(
            o,
            relay_geo::flatness_omega_ff(a, vec_at(i, 3), float_at(i, 6), float_at(i, 7)),
        ),
        // with the attitude worked out before, as the joint tick has it
        _ => put_ahead(
            o,
            relay_geo::feedforward_on(
                relay_geo::thrust_of(a),
                vec_at(i, 3),
                float_at(i, 7),
                relay_geo::thrust_attitude(a, float_at(i, 6)),
            ),
        ),
    }
}

fn controls(n: u32, i: &Row, o: &mut Row) {
    let c = GeoAtt::new(gains_at(i));
    match n {
        16 => put_gains(o, GeoGains::falcon_quad()),
        17 => put_gains(o, c.gains),
        18 => put_float(o, 0, GeoAtt::psi(mat_at(i, 0), mat_at(i, 9))),
        19 => put_vec(o, 0, GeoAtt::attitude_error(mat_at(i, 0), mat_at(i, 9))),
        20 => put_vec(
            o,
            0,
            GeoAtt::attitude_error_reduced(mat_at(i, 0), vec_at(i, 9)),
        ),
        21 => put_vec(
            o,
            0,
            c.moment_reduced(mat_at(i, 9), body_rate_at(i, 18), vec_at(i, 21))
                .0,
        ),
        22 => put_vec(
            o,
            0,
            c.moment(mat_at(i, 9), body_rate_at(i, 18), mat_at(i, 21)).0,
        ),
        23 => put_vec(
            o,
            0,
            c.desired_rate(quat_at(i, 9), vec_at(i, 13), float_at(i, 16))
                .0,
        ),
        _ => put_vec(
            o,
            0,
            c.tick(
                quat_at(i, 9),
                body_rate_at(i, 13),
                vec_at(i, 16),
                float_at(i, 19),
            )
            .0,
        ),
    }
}

fn shields(n: u32, i: &Row, o: &mut Row) {
    let set = set_at(i);
    let s = shield_at(i);
    match n {
        25 => put_set(o, RecoverableSet::new(set.k_r, set.lambda_j, set.psi_max)),
        26 => put_float(o, 0, set.margin(float_at(i, 3), float_at(i, 4))),
        27 => put_yes(o, 0, set.recoverable(float_at(i, 3), float_at(i, 4))),
        28 => put_shield(o, SimplexShield::new(set, float_at(i, 3), float_at(i, 4))),
        29 => put_yes(o, 0, s.fallback_engaged()),
        30 => put_shielded(
            o,
            s.filter(
                float_at(i, 6),
                float_at(i, 7),
                body_rate_at(i, 8),
                body_rate_at(i, 11),
            ),
        ),
        _ => put_shielded(
            o,
            s.step(float_at(i, 6), body_rate_at(i, 7), body_rate_at(i, 10)),
        ),
    }
}

fn put_shielded(o: &mut Row, x: Shielded) {
    put_shield(o, x.shield);
    put_vec(o, 6, x.command.0);
    put_yes(o, 9, x.fallback);
}

// An answer that may be a refusal: a yes and its words, or zeros.
fn put_direction(o: &mut Row, d: Option<Vec3>) {
    if let Some(v) = d {
        put_yes(o, 0, true);
        put_vec(o, 1, v);
    }
}

fn put_ahead(o: &mut Row, f: Option<BodyRate>) {
    put_direction(o, f.map(|w| w.0));
}

fn put_attitude(o: &mut Row, a: Option<Mat3>) {
    if let Some(m) = a {
        put_yes(o, 0, true);
        put_mat(o, 1, m);
    }
}
