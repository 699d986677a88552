// The latch between the planner and the fallback, on margins alone: who has control (the shield of 000 steps by it).
#![tactic(auto)]

ghost use Rattle.std.specs.Prelude.{◌≡◌};
ghost use Rattle.latch.specs.Latch.{engages, latch};

use relay_math::{finite_above, is_finite};

// The margin takes control from the planner.
fn engages(enter: f32, margin: f32) -> bool
    ensures { result ≡ engages enter margin }
{
    !is_finite(margin) || margin < enter
}

// Whether the fallback has control after this margin. Between the two thresholds it stays as it was: giving control back as soon as the
// margin rises over `enter` would change controllers on nearly every tick.
#[tactic(auto, unfolding(crate::specs::Latch::latch))]
pub fn latch(enter: f32, exit: f32, engaged: bool, margin: f32) -> bool
    ensures { result ≡ latch enter exit engaged margin }
{
    if engaged {
        !finite_above(exit, margin)
    } else {
        engages(enter, margin)
    }
}
