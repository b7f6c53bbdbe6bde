// What a call at a store answers: what it asks for, or a refusal as a case of an enum.
#![tactic(auto)]

ghost use Rattle.std.specs.Prelude.{◌≡◌};
ghost use Rattle.calls.specs.Refusals.{refusal_number};

// The refusals of documents 01 and 02 that a call at a store can get.
#[derive(Clone, Copy, Debug, PartialEq, Eq)]
pub enum Refusal {
    Unsound,
    NoSuchDesk,
    AlreadyOpen,
    NotOpen,
    OutsideLimits,
    BadReservation,
    NoRoom,
    NotOfSitting,
    SampleFull,
    PastReservation,
    SampleEmpty,
    SheetShort,
    WeightOutside,
    SampleShort,
}

// What a report answers: the row count and the score. The rows are on the sheet.
#[derive(Clone, Copy, Debug, PartialEq, Eq)]
pub struct Reported {
    pub rows: u32,
    pub score: i64,
}

// The answer of a run of feeds: how many were accepted, and how it ended: with the whole sample, or with the refusal that the next feed got.
#[derive(Clone, Copy, Debug, PartialEq, Eq)]
pub struct Fed {
    pub accepted: usize,
    pub ending: Result<(), Refusal>,
}

// A refusal's number in the documents.
impl From<Refusal> for u32 {
    ghost from_gives = { λ why number. number ≡ refusal_number why };

    fn from(why: Refusal) -> u32 {
        match why {
            Refusal::Unsound => 1,
            Refusal::NoSuchDesk => 2,
            Refusal::AlreadyOpen => 3,
            Refusal::NotOpen => 4,
            Refusal::OutsideLimits => 5,
            Refusal::BadReservation => 6,
            Refusal::NoRoom => 7,
            Refusal::NotOfSitting => 8,
            Refusal::SampleFull => 9,
            Refusal::PastReservation => 10,
            Refusal::SampleEmpty => 11,
            Refusal::SheetShort => 12,
            Refusal::WeightOutside => 20,
            Refusal::SampleShort => 24,
        }
    }
}
