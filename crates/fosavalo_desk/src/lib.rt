// The desk's C face: exported wrappers over `desk`, and nothing else; include/fosavalo_desk.h declares them.
#![tactic(auto)]

ghost use Rattle.std.specs.Prelude.{◌≡◌};
ghost use Rattle.outcome.specs.Outcomes.{left};
ghost use Rattle.desk.specs.Entry.{desk_numbered, desk_set_up_call, centre_call, lent_to_desk, OnSegment, OnRoute, desk_tick_call};

// The version that this was built as: 65536 times its first number, 256 times its second, and its third.
#[unsafe(no_mangle)]
pub extern "C" fn fosavalo_desk_version() -> u32
    ensures { result ≡ 0x0f00 }
{
    0x0f00
}

// Set-up of a desk: the number of its outcome, and the desk as `desk::setup` leaves it.
#[unsafe(no_mangle)]
pub extern "C" fn fosavalo_desk_setup(desk: &mut [u8], input: &[u8]) -> u32
    ensures { left result desk.new ≡ desk_numbered (desk_set_up_call desk.old input.now) }
{
    desk::desk_number(desk::setup(desk, input))
}

// The centre button: the number of its outcome, and the desk as `desk::centre` leaves it.
#[unsafe(no_mangle)]
pub extern "C" fn fosavalo_desk_centre(desk: &mut [u8]) -> u32
    ensures { left result desk.new ≡ desk_numbered (centre_call desk.old) }
{
    desk::desk_number(desk::centre(desk))
}

// A desk tick: the number of its outcome, and the four buffers as `desk::tick` leaves them.
#[unsafe(no_mangle)]
pub extern "C" fn fosavalo_desk_tick(
    desk: &mut [u8],
    sticks: &[u8],
    image: &mut [u8],
    input: &mut [u8],
    answer: &mut [u8],
) -> u32
    ensures { left result (lent_to_desk desk.new image.new input.new answer.new) ≡ desk_numbered (desk_tick_call OnSegment desk.old sticks.now image.old input.old answer.old) }
{
    desk::desk_number(desk::tick(desk, sticks, image, input, answer))
}

// A desk tick on a route: the number of its outcome, and the four buffers as `desk::route_tick` leaves them.
#[unsafe(no_mangle)]
pub extern "C" fn fosavalo_desk_route_tick(
    desk: &mut [u8],
    sticks: &[u8],
    image: &mut [u8],
    input: &mut [u8],
    route: &[u8],
    answer: &mut [u8],
) -> u32
    ensures { left result (lent_to_desk desk.new image.new input.new answer.new) ≡ desk_numbered (desk_tick_call (OnRoute route.now) desk.old sticks.now image.old input.old answer.old) }
{
    desk::desk_number(desk::route_tick(desk, sticks, image, input, route, answer))
}
