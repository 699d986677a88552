// `step` once more, over a shield that the caller lends, as the Rust's `&mut self` has it: thin over the one by value, which does the work.
ghost use Rattle.std.specs.Prelude.{◌≡◌};
ghost use Rattle.relay_geo.specs.Shield.{step};
ghost use Rattle.relay_geo.specs.Lent.{picked_of};

use crate::shield::SimplexShield;
use relay_math::BodyRate;

// What the Rust's `step` returns: the command that the shield passes on, and whether that is the fallback.
#[repr(C)]
#[derive(Clone, Copy)]
pub struct Picked {
    pub command: BodyRate,
    pub fallback: bool,
}

impl SimplexShield {
    pub fn step_lent(&mut self, margin: f32, agile: BodyRate, fallback: BodyRate) -> Picked
        ensures { (result ≡ picked_of (step self.old margin agile fallback))
            × (self.new ≡ (step self.old margin agile fallback).shield) }
    {
        let next = (*self).step(margin, agile, fallback);
        *self = next.shield;
        Picked {
            command: next.command,
            fallback: next.fallback,
        }
    }
}
