// How a call ends. Document 01 numbers the first four refusals, requests One, Two, Six, Twelve and Fourteen of document 02 the next eight. The numbers above 12 are our own:
// no document gives one to "there is no such record", nor to a wrong buffer for one.
#![tactic(auto)]

ghost use Rattle.std.specs.Prelude.{◌≡◌};
ghost use Rattle.outcome.specs.Outcomes.{refusal_number, number};

// What a call is refused for.
#[derive(Clone, Copy, PartialEq, Eq)]
pub enum Refusal {
    ImageLength,
    InputLength,
    AnswerLength,
    BrokenImage,
    LegCount,
    RouteLength,
    LegsApart,
    BrokenLog,
    NoRoom,
    BadProfile,
    PassThrough,
    BadPattern,
    NoRecord,
    RecordLength,
}

// `Ok` where the call was not refused.
pub type Outcome = Result<(), Refusal>;

impl From<Refusal> for u32 {
    ghost from_gives = { λ refusal n. n ≡ refusal_number refusal };

    fn from(refusal: Refusal) -> u32 {
        match refusal {
            Refusal::ImageLength => 1,
            Refusal::InputLength => 2,
            Refusal::AnswerLength => 3,
            Refusal::BrokenImage => 4,
            Refusal::LegCount => 5,
            Refusal::RouteLength => 6,
            Refusal::LegsApart => 7,
            Refusal::BrokenLog => 8,
            Refusal::NoRoom => 9,
            Refusal::BadProfile => 10,
            Refusal::PassThrough => 11,
            Refusal::BadPattern => 12,
            Refusal::NoRecord => 13,
            Refusal::RecordLength => 14,
        }
    }
}

// 0 where the call was not refused.
pub fn number(outcome: Outcome) -> u32
    ensures { result ≡ number outcome }
{
    match outcome {
        Ok(()) => 0,
        Err(refusal) => u32::from(refusal),
    }
}
