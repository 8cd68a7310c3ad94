// Why a call is refused. The page numbers the reasons; 0 is an accepted call.
#![tactic(auto)]

ghost use Rattle.std.specs.Prelude.{◌≡◌};
ghost use Rattle.refusals.specs.Refusals.{refusal_of};

#[derive(Clone, Copy, Debug, PartialEq, Eq)]
pub enum Refusal {
    Capacity,
    Lengths,
    NoSuchTill,
    ImageLength,
    ShortOutput,
    Unsound,
    TillFull,
    NumbersSpent,
    NoRecord,
    NoRun,
    NeverGiven,
    NoLongerHeld,
    OtherSegment,
    NoSegment,
    OverLimit,
    UnknownUser,
    NoRight,
    StreamSize,
    StreamLength,
    StreamBits,
    NoTurn,
    EarlierDay,
    NoneSoEarly,
    HighPrice,
}

impl From<Refusal> for u32 {
    ghost use Rattle.std.specs.Prelude.{◌≡◌};
    ghost use Rattle.refusals.specs.Refusals.{number_of};

    ghost from_gives = { λ r n. n ≡ number_of r };

    // The page's number.
    fn from(refusal: Refusal) -> u32 {
        match refusal {
            Refusal::Capacity => 1,
            Refusal::Lengths => 2,
            Refusal::NoSuchTill => 3,
            Refusal::ImageLength => 4,
            Refusal::ShortOutput => 5,
            Refusal::Unsound => 10,
            Refusal::TillFull => 11,
            Refusal::NumbersSpent => 12,
            Refusal::NoRecord => 14,
            Refusal::NoRun => 16,
            Refusal::NeverGiven => 17,
            Refusal::NoLongerHeld => 18,
            Refusal::OtherSegment => 19,
            Refusal::NoSegment => 20,
            Refusal::OverLimit => 21,
            Refusal::UnknownUser => 22,
            Refusal::NoRight => 23,
            Refusal::StreamSize => 24,
            Refusal::StreamLength => 25,
            Refusal::StreamBits => 26,
            Refusal::NoTurn => 27,
            Refusal::EarlierDay => 28,
            Refusal::NoneSoEarly => 29,
            Refusal::HighPrice => 30,
        }
    }
}

// The number that a call answers: 0 where it is accepted.
pub fn answered<T>(call: &Result<T, Refusal>) -> u32
    ensures { result ≡ refusal_of call.now }
{
    match call {
        Ok(_) => 0,
        Err(refusal) => u32::from(*refusal),
    }
}
