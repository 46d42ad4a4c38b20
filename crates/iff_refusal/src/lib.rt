// Why a call refuses: each reason has its number in docs/numbers.md, and a place in the file.
#![tactic(auto)]

ghost use Rattle.std.specs.Prelude.{◌≡◌};
ghost use Rattle.iff_refusal.specs.Numbers.{number_of, refusal};

use std::fmt;

// The reasons, in the order of their numbers.
#[derive(Clone, Copy, Debug, PartialEq, Eq)]
pub enum Reason {
    FileTooLong,
    NotIff,
    VersionName,
    HeaderCut,
    BadName,
    Misplaced,
    SizeTooGreat,
    NoPad,
    TooDeep,
    GroupTooShort,
    BadType,
    SecondProp,
    TableTooShort,
    NoRecord,
    IsGroup,
    NoPicture,
    NoHeader,
    SecondBody,
    WrongSize,
    EmptyPicture,
    NoBody,
    BodyEnds,
    RowOverstepped,
    WrongLength,
    BeyondBody,
    RowLength,
    NoRoom,
    WrongFields,
    ColourTooGreat,
    ResultTooLong,
    InputTooLong,
    TooManyPlanes,
    UnknownMasking,
    UnknownCompression,
    NoShape,
    WrongShape,
    HoldPlanes,
}

impl Reason {
    // The number that stands for the reason outside.
    pub fn number(self) -> usize
        ensures { result ≡ number_of self }
    {
        match self {
            Reason::FileTooLong => 1,
            Reason::NotIff => 2,
            Reason::VersionName => 3,
            Reason::HeaderCut => 4,
            Reason::BadName => 5,
            Reason::Misplaced => 6,
            Reason::SizeTooGreat => 7,
            Reason::NoPad => 8,
            Reason::TooDeep => 9,
            Reason::GroupTooShort => 10,
            Reason::BadType => 11,
            Reason::SecondProp => 12,
            Reason::TableTooShort => 13,
            Reason::NoRecord => 14,
            Reason::IsGroup => 15,
            Reason::NoPicture => 20,
            Reason::NoHeader => 21,
            Reason::SecondBody => 22,
            Reason::WrongSize => 23,
            Reason::EmptyPicture => 24,
            Reason::NoBody => 25,
            Reason::BodyEnds => 26,
            Reason::RowOverstepped => 27,
            Reason::WrongLength => 28,
            Reason::BeyondBody => 29,
            Reason::RowLength => 31,
            Reason::NoRoom => 32,
            Reason::WrongFields => 33,
            Reason::ColourTooGreat => 34,
            Reason::ResultTooLong => 35,
            Reason::InputTooLong => 40,
            Reason::TooManyPlanes => 41,
            Reason::UnknownMasking => 42,
            Reason::UnknownCompression => 43,
            Reason::NoShape => 44,
            Reason::WrongShape => 45,
            Reason::HoldPlanes => 46,
        }
    }

    // The refusal for this reason at a place.
    pub fn at(self, place: usize) -> Refusal
        ensures { result ≡ refusal self place }
    {
        Refusal {
            reason: self,
            place,
        }
    }
}

// A refusal: why, and where in the file.
#[derive(Clone, Copy, Debug, PartialEq, Eq)]
pub struct Refusal {
    pub reason: Reason,
    pub place: usize,
}

// Most reasons have no place and tell 0.
impl From<Reason> for Refusal {
    ghost from_gives = { λ reason r. r ≡ refusal reason 0 };

    fn from(reason: Reason) -> Refusal {
        reason.at(0)
    }
}
