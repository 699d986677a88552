// A pattern expanded into a route, on lent bytes. Nothing is asked of the caller; a refused call changes no byte of any buffer.
ghost use Rattle.std.specs.Prelude.{◌≡◌};
ghost use Rattle.outcome.specs.Outcomes.{left};
ghost use Rattle.pattern.specs.Entry.{buffers, expand_call};

use super::legs::put_route;
use super::walk::expand;
use outcome::{Outcome, Refusal};
use route::MOST_LEGS;

const DEEPEST: usize = 4;

// The route goes to the first bytes of its buffer, its length to `written` as a word.
pub fn expand_into(pattern: &[u8], route: &mut [u8], written: &mut [u8]) -> Outcome
    ensures { left result (buffers route.new written.new) ≡ expand_call pattern.now route.old written.old }
{
    if written.len() != 4 {
        return Err(Refusal::InputLength);
    }
    let mut places = [0usize; 32];
    let Some(past) = expand(pattern, 0, pattern.len(), DEEPEST, &mut places, 0) else {
        return Err(Refusal::BadPattern);
    };
    let count = past.legs;
    if count == 0 || count > MOST_LEGS {
        return Err(Refusal::LegCount);
    }
    put_route(pattern, &places[..count], route, written)
}
