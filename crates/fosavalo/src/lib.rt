// The C face: what a simulator links. Exported wrappers over the proved crates, and nothing else; include/fosavalo.h declares them.
#![tactic(auto)]

ghost use Rattle.std.specs.Prelude.{◌≡◌};
ghost use Rattle.relay_math.specs.Exact.{Limit, IsSine, IsCosine};
ghost use Rattle.relay_math.specs.Steps.{sinf, cosf};
ghost use Rattle.outcome.specs.Outcomes.{left, lent, number, numbered};
ghost use Rattle.lent_tick.specs.Tick.{tick_refusal};
ghost use Rattle.calls.specs.Entry.{set_up_call, exchange_call, tick_call};
ghost use Rattle.route.specs.Entry.{route_call, sample_call};
ghost use Rattle.flight_log.specs.Entry.{append_call, count_call, record_call};
ghost use Rattle.slow_shield.specs.Entry.{flags_call};
ghost use Rattle.audit.specs.Entry.{check_call};
ghost use Rattle.pattern.specs.Entry.{buffers, expand_call};

// The version that this was built as: 65536 times its first number, 256 times its second, and its third.
#[unsafe(no_mangle)]
pub extern "C" fn fosavalo_version() -> u32
    ensures { result ≡ 0x0f00 }
{
    0x0f00
}

// The sine of x, as `relay_math::sinf` has it.
#[unsafe(no_mangle)]
pub extern "C" fn fosavalo_sinf(x: f32) -> f32
    ensures near { IsSine Limit 20 x result }
    ensures is { result ≡ sinf x }
{
    relay_math::sinf(x)
}

// The cosine of x, as `relay_math::cosf` has it.
#[unsafe(no_mangle)]
pub extern "C" fn fosavalo_cosf(x: f32) -> f32
    ensures near { IsCosine Limit 20 x result }
    ensures is { result ≡ cosf x }
{
    relay_math::cosf(x)
}

// Set-up: the number of its outcome, and the image as `calls::setup` leaves it.
#[unsafe(no_mangle)]
pub extern "C" fn fosavalo_setup(image: &mut [u8], input: &[u8]) -> u32
    ensures { left result image.new ≡ numbered (set_up_call image.old input.now) }
{
    outcome::number(calls::setup(image, input))
}

// Another segment in flight, of a leg's 19 words: the number of its outcome, and the image as `calls::exchange` leaves it.
#[unsafe(no_mangle)]
pub extern "C" fn fosavalo_exchange(image: &mut [u8], segment: &[u8]) -> u32
    ensures { left result image.new ≡ numbered (exchange_call image.old segment.now) }
{
    outcome::number(calls::exchange(image, segment))
}

// A tick: the number of its outcome, and the image and the answer as `calls::tick` leaves them.
#[unsafe(no_mangle)]
pub extern "C" fn fosavalo_tick(image: &mut [u8], input: &[u8], answer: &mut [u8]) -> u32
    ensures { left result (lent image.new answer.new) ≡ numbered (tick_call image.old input.now answer.old) }
{
    outcome::number(calls::tick(image, input, answer))
}

// What a tick would be refused for, by the lengths and the image alone: a caller may ask before it changes anything of its own.
#[unsafe(no_mangle)]
pub extern "C" fn fosavalo_tick_refusal(image: &[u8], input_len: usize, answer_len: usize) -> u32
    ensures { result ≡ number (tick_refusal image.now input_len answer_len) }
{
    outcome::number(calls::tick_refusal(image, input_len, answer_len))
}

// A tick on a route: the number of its outcome, and the image and the answer as `route::route_tick` leaves them.
#[unsafe(no_mangle)]
pub extern "C" fn fosavalo_route_tick(
    image: &mut [u8],
    input: &[u8],
    route: &[u8],
    answer: &mut [u8],
) -> u32
    ensures { left result (lent image.new answer.new) ≡ numbered (route_call image.old input.now route.now answer.old) }
{
    outcome::number(route::route_tick(image, input, route, answer))
}

// Where the craft should be on a route at a time: the number of the outcome, and the sample's buffer as `route::route_sample` leaves it.
#[unsafe(no_mangle)]
pub extern "C" fn fosavalo_route_sample(route: &[u8], time: f32, sample: &mut [u8]) -> u32
    ensures { left result sample.new ≡ numbered (sample_call route.now time sample.old) }
{
    outcome::number(route::route_sample(route, time, sample))
}

// One record more in a log: the number of the outcome, and the buffer as `flight_log::append` leaves it. A length of 64 bits is a slice's own.
#[unsafe(no_mangle)]
pub extern "C" fn fosavalo_log_append(
    buffer: &mut [u8],
    log_len: u64,
    input: &[u8],
    answer: &[u8],
) -> u32
    ensures { left result buffer.new ≡ numbered (append_call buffer.old log_len input.now answer.now) }
{
    outcome::number(flight_log::append(buffer, log_len as usize, input, answer))
}

// How many records a log has, as a word: the number of the outcome, and the count's buffer as `flight_log::count_into` leaves it.
#[unsafe(no_mangle)]
pub extern "C" fn fosavalo_log_count(log: &[u8], count: &mut [u8]) -> u32
    ensures { left result count.new ≡ numbered (count_call log.now count.old) }
{
    outcome::number(flight_log::count_into(log, count))
}

// The record at a place of a log: the number of the outcome, and the record's buffer as `flight_log::record_into` leaves it.
#[unsafe(no_mangle)]
pub extern "C" fn fosavalo_log_record(log: &[u8], place: u64, into: &mut [u8]) -> u32
    ensures { left result into.new ≡ numbered (record_call log.now place into.old) }
{
    outcome::number(flight_log::record_into(log, place as usize, into))
}

// The flags of a list of margins, by looking back: the number of the outcome, and the flags' buffer as `slow_shield::flags_into` leaves it.
#[unsafe(no_mangle)]
pub extern "C" fn fosavalo_flags(margins: &[u8], enter: f32, exit: f32, flags: &mut [u8]) -> u32
    ensures { left result flags.new ≡ numbered (flags_call margins.now enter exit flags.old) }
{
    outcome::number(slow_shield::flags_into(margins, enter, exit, flags))
}

// The verdict on a log, as a word: the number of the outcome, and the verdict's buffer as `audit::check_into` leaves it.
#[unsafe(no_mangle)]
pub extern "C" fn fosavalo_log_check(
    log: &[u8],
    profile: u32,
    enter: f32,
    exit: f32,
    verdict: &mut [u8],
) -> u32
    ensures { left result verdict.new ≡ numbered (check_call log.now profile enter exit verdict.old) }
{
    outcome::number(audit::check_into(log, profile, enter, exit, verdict))
}

// A pattern expanded into a route: the number of the outcome, and the route's and the length's buffers as `pattern::expand_into` leaves them.
#[unsafe(no_mangle)]
pub extern "C" fn fosavalo_pattern_expand(
    pattern: &[u8],
    route: &mut [u8],
    written: &mut [u8],
) -> u32
    ensures { left result (buffers route.new written.new) ≡ numbered (expand_call pattern.now route.old written.old) }
{
    outcome::number(pattern::expand_into(pattern, route, written))
}
