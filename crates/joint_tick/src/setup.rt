// Set-up: the first state, by the constructors. They mend what is bad, so every bit pattern is taken. And the exchange of the segment.
ghost use Rattle.std.specs.Prelude.{◌≡◌};
ghost use Rattle.joint_tick.specs.SetUp.{segment_of, set_up, exchange};

use crate::state::{Fixed, Leg, Moving, SetUp, State};
use relay_adrc::{AdrcRate, GyroLpf};
use relay_geo::SimplexShield;
use relay_traj::{RefGovernor, Segment3};

pub fn segment_of(leg: Leg) -> Segment3
    ensures { result ≡ segment_of leg }
{
    Segment3::new(leg.p0, leg.v0, leg.a0, leg.pf, leg.vf, leg.af, leg.t)
}

pub fn set_up(input: SetUp) -> State
    ensures { result ≡ set_up input }
{
    let shield = SimplexShield::new(input.set, input.enter, input.exit);
    State {
        fixed: Fixed {
            gains: input.gains,
            set: shield.set,
            enter: shield.enter,
            exit: shield.exit,
            segment: segment_of(input.leg),
            profile: input.profile,
        },
        moving: Moving {
            engaged: shield.engaged,
            governor: RefGovernor::new(input.err_lo, input.err_hi, input.g_min),
            rate: AdrcRate::new(input.roll, input.pitch, input.yaw),
            lpf: GyroLpf::new(input.fc, input.fs),
        },
    }
}

// Another segment in flight (request Seven): that of a new leg, from its start on.
#[tactic(auto, unfolding(crate::specs::SetUp::exchange))]
pub fn exchange(state: State, leg: Leg) -> State
    ensures { result ≡ exchange state leg }
{
    let moving = state.moving;
    State {
        fixed: Fixed {
            segment: segment_of(leg),
            ..state.fixed
        },
        moving: Moving {
            governor: moving.governor.reset(),
            ..moving
        },
    }
}
