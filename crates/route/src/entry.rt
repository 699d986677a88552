// A tick on a route, on lent bytes. Nothing is asked of the caller; a refused call changes no byte of any buffer.
ghost use Rattle.std.specs.Prelude.{◌≡◌};
ghost use Rattle.outcome.specs.Outcomes.{left, lent};
ghost use Rattle.route.specs.Entry.{route_call};

use super::legs::reference_in_form;
use lent_tick::tick_toward;
use outcome::Outcome;

// The base's tick, toward the sample of the leg flown; the image's segment is kept and not looked at but for row 4. A route is sampled only if it has
// its form; where it has none, row 4 still comes before it.
pub fn route_tick(image: &mut [u8], input: &[u8], route: &[u8], answer: &mut [u8]) -> Outcome
    ensures { left result (lent image.new answer.new) ≡ route_call image.old input.now route.now answer.old }
{
    tick_toward(image, input, answer, |_, time| {
        reference_in_form(route, time)
    })
}
