// Why a word says no bytes.
ghost use Rattle.std.specs.Prelude.{◌≡◌, Some};
ghost use Rattle.vectors.specs.declared.faults.WordFault.TheVariants.{NoMemory};
ghost use Rattle.vectors.specs.Texts.{fault_text};

use std::alloc::AllocError;
use std::error::Error;
use std::fmt;

/// What is wrong with a word.
#[derive(Clone, Copy, Debug, PartialEq, Eq)]
pub enum WordFault {
    /// The first byte that is no digit, and its place.
    NotHexadecimal { c: u8, index: usize },
    /// There was no memory for the bytes.
    NoMemory,
}

impl fmt::Display for WordFault {
    ghost output = { λ f. Some (fault_text f) };

    fn fmt<W: fmt::Write>(&self, f: &mut fmt::Formatter<W>) -> fmt::Result {
        match self {
            WordFault::NotHexadecimal { .. } => f.write_str("not hexadecimal"),
            WordFault::NoMemory => f.write_str("memory allocation failed"),
        }
    }
}

impl Error for WordFault {}

impl From<AllocError> for WordFault {
    ghost from_gives = { λ _ f. f ≡ NoMemory };

    fn from(_: AllocError) -> WordFault {
        Self::NoMemory
    }
}
