// The kinds of objects, and the compaction codes that they are packed by.
ghost use Rattle.std.specs.Prelude.{◌≡◌, ◌<◌, Some, MatchResult};
ghost use Rattle.codes.specs.Numbers.{kind_number, code_number, unknown_text};

use std::error::Error;
use std::fmt;

/// A number that no kind, or no code, has.
#[derive(Clone, Copy, Debug, PartialEq, Eq)]
pub struct UnknownNumber(pub u8);

impl fmt::Display for UnknownNumber {
    ghost output = { λ n. Some (unknown_text n.0) };

    fn fmt<W: fmt::Write>(&self, f: &mut fmt::Formatter<W>) -> fmt::Result {
        write!(f, "nothing has the number {}", self.0)
    }
}

impl Error for UnknownNumber {}

/// What the bytes of an object are: an application's own, text that is packed as short as it goes, UTF-8.
#[derive(Clone, Copy, Debug, PartialEq, Eq)]
pub enum Kind {
    Application,
    Compact,
    Utf8,
}

impl TryFrom<u8> for Kind {
    type Error = UnknownNumber;

    ghost try_from_gives = { λ n r. MatchResult r (λ k. kind_number k ≡ n) (λ _. 2 < n) };

    fn try_from(number: u8) -> Result<Self, UnknownNumber> {
        match number {
            0 => Ok(Kind::Application),
            1 => Ok(Kind::Compact),
            2 => Ok(Kind::Utf8),
            _ => Err(UnknownNumber(number)),
        }
    }
}

impl From<Kind> for u8 {
    ghost from_gives = { λ k r. r ≡ kind_number k };

    fn from(kind: Kind) -> u8 {
        match kind {
            Kind::Application => 0,
            Kind::Compact => 1,
            Kind::Utf8 => 2,
        }
    }
}

/// The code of a set, as its precursor has it.
#[derive(Clone, Copy, Debug, PartialEq, Eq)]
pub enum Compaction {
    ApplicationDefined,
    Integer,
    Numeric,
    FiveBit,
    SixBit,
    SevenBit,
    OctetString,
    Utf8String,
}

impl TryFrom<u8> for Compaction {
    type Error = UnknownNumber;

    ghost try_from_gives = { λ n r. MatchResult r (λ c. code_number c ≡ n) (λ _. 7 < n) };

    fn try_from(number: u8) -> Result<Self, UnknownNumber> {
        match number {
            0 => Ok(Compaction::ApplicationDefined),
            1 => Ok(Compaction::Integer),
            2 => Ok(Compaction::Numeric),
            3 => Ok(Compaction::FiveBit),
            4 => Ok(Compaction::SixBit),
            5 => Ok(Compaction::SevenBit),
            6 => Ok(Compaction::OctetString),
            7 => Ok(Compaction::Utf8String),
            _ => Err(UnknownNumber(number)),
        }
    }
}

impl From<Compaction> for u8 {
    ghost from_gives = { λ c r. r ≡ code_number c };

    fn from(code: Compaction) -> u8 {
        match code {
            Compaction::ApplicationDefined => 0,
            Compaction::Integer => 1,
            Compaction::Numeric => 2,
            Compaction::FiveBit => 3,
            Compaction::SixBit => 4,
            Compaction::SevenBit => 5,
            Compaction::OctetString => 6,
            Compaction::Utf8String => 7,
        }
    }
}
