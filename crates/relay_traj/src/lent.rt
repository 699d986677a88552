// `advance` once more, over a governor that the caller lends, as the Rust's `&mut self` has it: thin over the one by value, which does the work.
ghost use Rattle.std.specs.Prelude.{◌≡◌};
ghost use Rattle.relay_traj.specs.Governor.{advance};

use crate::governor::RefGovernor;

impl RefGovernor {
    pub fn advance_lent(&mut self, track_err: f32, dt: f32) -> f32
        ensures { (result ≡ (advance self.old track_err dt).time)
            × (self.new ≡ (advance self.old track_err dt).governor) }
    {
        let next = (*self).advance(track_err, dt);
        *self = next.governor;
        next.time
    }
}
