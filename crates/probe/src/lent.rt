// The routines over a lent state: the host hands in its own struct by a pointer, as the Rust's `&mut self` does.
ghost use Rattle.std.specs.Prelude.{◌≡◌};
ghost use Rattle.relay_geo.specs.Shield.{step};
ghost use Rattle.relay_geo.specs.Lent.{picked_of};
ghost use Rattle.relay_traj.specs.Governor.{advance};

use relay_geo::{Picked, SimplexShield};
use relay_math::BodyRate;
use relay_traj::RefGovernor;

#[unsafe(no_mangle)]
pub extern "C" fn probe_simplexshield_step_lent(
    s: &mut SimplexShield,
    margin: f32,
    agile: BodyRate,
    fallback: BodyRate,
) -> Picked
    ensures { (result ≡ picked_of (step s.old margin agile fallback))
        × (s.new ≡ (step s.old margin agile fallback).shield) }
{
    s.step_lent(margin, agile, fallback)
}

#[unsafe(no_mangle)]
pub extern "C" fn probe_refgovernor_advance_lent(
    g: &mut RefGovernor,
    track_err: f32,
    dt: f32,
) -> f32
    ensures { (result ≡ (advance g.old track_err dt).time)
        × (g.new ≡ (advance g.old track_err dt).governor) }
{
    g.advance_lent(track_err, dt)
}
