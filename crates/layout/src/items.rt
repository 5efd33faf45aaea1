// What a gap is laid out for, and what its layout answers.
ghost use Rattle.std.specs.Prelude.{◌≡◌, Some};
ghost use Rattle.layout.specs.Texts.{fault_text};

use std::error::Error;
use std::fmt;

/// What stands behind a gap, which is a longest run of open blocks: a locked block, or the end of the memory.
#[derive(Clone, Copy, Debug, PartialEq, Eq)]
pub enum Behind {
    Locked,
    End,
}

/// Why a gap is not laid out.
#[derive(Clone, Copy, Debug, PartialEq, Eq)]
pub enum LayoutFault {
    /// the first item that no set can hold: its identifier (19) or its object (20) is at fault
    Unfit(usize),
    /// 27: the smallest forms of the items take more than the gap has
    TooSmall,
    /// no item to be readied, or blocks of no byte or of over 256
    NoPlace,
}

impl fmt::Display for LayoutFault {
    ghost output = { λ f. Some (fault_text f) };

    fn fmt<W: fmt::Write>(&self, f: &mut fmt::Formatter<W>) -> fmt::Result {
        match self {
            LayoutFault::Unfit(i) => write!(f, "item {i} unfit"),
            LayoutFault::TooSmall => f.write_str("too small"),
            LayoutFault::NoPlace => f.write_str("no place"),
        }
    }
}

impl Error for LayoutFault {}

/// Where a readied set stands in its gap, and how many bytes of whole blocks it takes.
#[derive(Clone, Copy, Debug, PartialEq, Eq)]
pub struct Readied {
    pub at: usize,
    pub bytes: usize,
}
