// 003 and 004: the one routine of relay_pos, number 300, and relay_math's root and size, 400 and 401.
use super::parts::Row;
use relay_pos::Quaternion;
use words::{put_float, put_three, vec_at};

pub(crate) fn answer(n: u32, i: &Row, o: &mut Row) {
    let v = vec_at(i, 0);
    match n {
        300 => put_quaternion(o, relay_pos::euler_to_quaternion(v.0, v.1, v.2)),
        400 => put_float(o, 0, relay_math::sqrtf(v.0)),
        _ => put_float(o, 0, relay_math::fabsf(v.0)),
    }
}

fn put_quaternion(o: &mut Row, q: Quaternion) {
    put_three(o, 0, q.0, q.1, q.2);
    put_float(o, 3, q.3);
}
