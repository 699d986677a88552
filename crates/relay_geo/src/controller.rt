// The geometric attitude controller (Lee, Leok, McClamroch 2010), for a desired body rate of zero.
ghost use Rattle.std.specs.Prelude.{◌≡◌};
ghost use Rattle.relay_geo.specs.Controller.{falcon_quad_gains, psi, attitude_error, attitude_error_reduced, gyroscopic, against, opposed, moment_reduced, moment, rate_toward, torque_toward, desired_rate, tick};

use super::attitude::{quat_to_rotmat, thrust_attitude};
use super::vectors::{Mat3, Quat, cross, sanitise3, transposed_times};
use relay_math::{BodyRate, Torque, Vec3};

// The gains and the diagonal inertia (kg m^2), each axis by axis.
#[repr(C)]
#[derive(Clone, Copy)]
pub struct GeoGains {
    pub k_r: Vec3,
    pub k_omega: Vec3,
    pub j: Vec3,
}

impl GeoGains {
    // For the falcon quad (2 kg, inertia about 0.0217). Yaw is damped firmly and held weakly: its attitude comes from a lagged estimate, its
    // rate from the gyro itself.
    pub const FALCON_QUAD: GeoGains = GeoGains {
        k_r: Vec3(0.6, 0.6, 0.15),
        k_omega: Vec3(0.12, 0.12, 0.35),
        j: Vec3(0.0217, 0.0217, 0.04),
    };

    // `FALCON_QUAD`, with a promise that fixes the bits.
    pub fn falcon_quad() -> GeoGains
        ensures { result ≡ falcon_quad_gains }
    {
        GeoGains::FALCON_QUAD
    }
}

#[repr(C)]
#[derive(Clone, Copy)]
pub struct GeoAtt {
    pub gains: GeoGains,
}

// Each number of e times the gain against it.
fn against(k: Vec3, e: Vec3) -> Vec3
    ensures { result ≡ against k e }
{
    Vec3(-k.0 * e.0, -k.1 * e.1, -k.2 * e.2)
}

// The rate across the angular momentum that it makes.
fn gyroscopic(j: Vec3, omega: Vec3) -> Vec3
    ensures { result ≡ gyroscopic j omega }
{
    let j_omega = Vec3(j.0 * omega.0, j.1 * omega.1, j.2 * omega.2);
    cross(omega, j_omega)
}

// The gains against the error and the rate, and the gyroscopic term, axis by axis.
fn opposed(k_r: Vec3, e: Vec3, k_omega: Vec3, omega: Vec3, gyro: Vec3) -> Vec3
    ensures { result ≡ opposed k_r e k_omega omega gyro }
{
    Vec3(
        -k_r.0 * e.0 - k_omega.0 * omega.0 + gyro.0,
        -k_r.1 * e.1 - k_omega.1 * omega.1 + gyro.1,
        -k_r.2 * e.2 - k_omega.2 * omega.2 + gyro.2,
    )
}

impl GeoAtt {
    pub fn new(gains: GeoGains) -> GeoAtt
        ensures { result ≡ record { gains = gains } }
    {
        GeoAtt { gains: gains }
    }

    // The configuration error, half the trace of I - R_d^T R: the potential term of the Lyapunov function. `pij` is entry (i, j) of R_d^T R,
    // read where its numbers stand: no matrix is built on the way.
    pub fn psi(r: Mat3, r_d: Mat3) -> f32
        ensures { result ≡ psi r r_d }
    {
        let p00 = 0.0 + r_d.0.0 * r.0.0 + r_d.1.0 * r.1.0 + r_d.2.0 * r.2.0;
        let p11 = 0.0 + r_d.0.1 * r.0.1 + r_d.1.1 * r.1.1 + r_d.2.1 * r.2.1;
        let p22 = 0.0 + r_d.0.2 * r.0.2 + r_d.1.2 * r.1.2 + r_d.2.2 * r.2.2;
        0.5 * (3.0 - (p00 + p11 + p22))
    }

    // The attitude error in the body's axes. It is the full vee, twice Lee's: the half is in the gain k_r. `pij` is as above and `qij` the same
    // entry of R^T R_d. Each sum starts from 0.0, so none is a negative zero; the halved difference stays, since twice an entry can overflow.
    pub fn attitude_error(r: Mat3, r_d: Mat3) -> Vec3
        ensures { result ≡ attitude_error r r_d }
    {
        let p21 = 0.0 + r_d.0.2 * r.0.1 + r_d.1.2 * r.1.1 + r_d.2.2 * r.2.1;
        let q21 = 0.0 + r.0.2 * r_d.0.1 + r.1.2 * r_d.1.1 + r.2.2 * r_d.2.1;
        let p12 = 0.0 + r_d.0.1 * r.0.2 + r_d.1.1 * r.1.2 + r_d.2.1 * r.2.2;
        let q12 = 0.0 + r.0.1 * r_d.0.2 + r.1.1 * r_d.1.2 + r.2.1 * r_d.2.2;
        let p02 = 0.0 + r_d.0.0 * r.0.2 + r_d.1.0 * r.1.2 + r_d.2.0 * r.2.2;
        let q02 = 0.0 + r.0.0 * r_d.0.2 + r.1.0 * r_d.1.2 + r.2.0 * r_d.2.2;
        let p20 = 0.0 + r_d.0.2 * r.0.0 + r_d.1.2 * r.1.0 + r_d.2.2 * r.2.0;
        let q20 = 0.0 + r.0.2 * r_d.0.0 + r.1.2 * r_d.1.0 + r.2.2 * r_d.2.0;
        let p10 = 0.0 + r_d.0.1 * r.0.0 + r_d.1.1 * r.1.0 + r_d.2.1 * r.2.0;
        let q10 = 0.0 + r.0.1 * r_d.0.0 + r.1.1 * r_d.1.0 + r.2.1 * r_d.2.0;
        let p01 = 0.0 + r_d.0.0 * r.0.1 + r_d.1.0 * r.1.1 + r_d.2.0 * r.2.1;
        let q01 = 0.0 + r.0.0 * r_d.0.1 + r.1.0 * r_d.1.1 + r.2.0 * r_d.2.1;
        Vec3(
            0.5 * ((p21 - q21) - (p12 - q12)),
            0.5 * ((p02 - q02) - (p20 - q20)),
            0.5 * ((p10 - q10) - (p01 - q01)),
        )
    }

    // The error of the thrust axis alone, for a rotor out: yaw is let go. It is zero at b3_d, and upside down too.
    pub fn attitude_error_reduced(r: Mat3, b3_d: Vec3) -> Vec3
        ensures { result ≡ attitude_error_reduced r b3_d }
    {
        let v = transposed_times(r, b3_d);
        Vec3(2.0 * v.1, -2.0 * v.0, 0.0)
    }

    // The torque for a rotor out: no yaw torque.
    pub fn moment_reduced(self, r: Mat3, omega: BodyRate, b3_d: Vec3) -> Torque
        ensures { result ≡ moment_reduced self.gains r omega b3_d }
    {
        let e = GeoAtt::attitude_error_reduced(r, b3_d);
        let g = self.gains;
        let w = omega.0;
        let m = opposed(g.k_r, e, g.k_omega, w, gyroscopic(g.j, w));
        Torque(Vec3(m.0, m.1, 0.0))
    }

    // The torque toward r_d: -k_R e_R - k_Omega Omega + Omega x J Omega.
    pub fn moment(self, r: Mat3, omega: BodyRate, r_d: Mat3) -> Torque
        ensures { result ≡ moment self.gains r omega r_d }
    {
        let e_r = GeoAtt::attitude_error(r, r_d);
        let g = self.gains;
        let w = omega.0;
        Torque(opposed(g.k_r, e_r, g.k_omega, w, gyroscopic(g.j, w)))
    }

    // The rate toward an attitude that is there already: zeros where there is none.
    pub fn rate_toward(self, r: Mat3, r_d: Option<Mat3>) -> BodyRate
        ensures { result ≡ rate_toward self.gains r r_d }
    {
        match r_d {
            Some(r_d) => {
                let e = GeoAtt::attitude_error(r, r_d);
                let g = self.gains;
                BodyRate(sanitise3(against(g.k_r, e)))
            }
            None => BodyRate(Vec3(0.0, 0.0, 0.0)),
        }
    }

    // The outer loop for a robust inner loop to follow: a desired body rate, and not a torque.
    pub fn desired_rate(self, q_est: Quat, a_cmd_ned: Vec3, yaw_d: f32) -> BodyRate
        ensures { result ≡ desired_rate self.gains q_est a_cmd_ned yaw_d }
    {
        let r = quat_to_rotmat(q_est);
        let r_d = thrust_attitude(sanitise3(a_cmd_ned), yaw_d);
        self.rate_toward(r, r_d)
    }

    // The torque toward an attitude that is there already: rate damping alone where there is none.
    fn torque_toward(self, r: Mat3, omega: BodyRate, r_d: Option<Mat3>) -> Torque
        ensures { result ≡ torque_toward self.gains r omega r_d }
    {
        match r_d {
            Some(r_d) => {
                let m = self.moment(r, omega, r_d);
                Torque(sanitise3(m.0))
            }
            None => {
                let g = self.gains;
                Torque(sanitise3(against(g.k_omega, omega.0)))
            }
        }
    }

    // One control tick: the torque toward the attitude that the commanded acceleration and the heading ask for.
    pub fn tick(self, q_est: Quat, omega_body: BodyRate, a_cmd_ned: Vec3, yaw_d: f32) -> Torque
        ensures { result ≡ tick self.gains q_est omega_body a_cmd_ned yaw_d }
    {
        let r = quat_to_rotmat(q_est);
        let omega = BodyRate(sanitise3(omega_body.0));
        let r_d = thrust_attitude(sanitise3(a_cmd_ned), yaw_d);
        self.torque_toward(r, omega, r_d)
    }
}
