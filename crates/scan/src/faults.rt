// What a scan finds at fault.
ghost use Rattle.std.specs.Prelude.{◌≡◌};
ghost use Rattle.scan.specs.declared.faults.ScanFault.TheVariants.{Set, Code};
ghost use Rattle.scan.specs.Faults.{malformed_number, scan_number, scan_place, scan_group, scan_layer};

use codes::Fault;
use tags::{Layer, Refusal};

/// What is wrong with the bytes of a set, in the order in which they are met.
#[derive(Clone, Copy, Debug, PartialEq, Eq)]
pub enum Malformed {
    /// Nibble 0 in a precursor that is neither 00 nor 80.
    Nibble,
    /// A byte that is needed lies past the memory.
    Past,
    /// A lead byte from 71 to 7F, or above 9F.
    Lead,
    /// An arc that begins with 80, or that does not end.
    Arcs,
    /// A second length byte from 80 on, or two bytes for a length below 128.
    Length,
    /// An object of no bytes.
    Empty,
}

impl Malformed {
    pub fn number(self) -> u8
        ensures value { result ≡ malformed_number self }
    {
        match self {
            Malformed::Nibble => 7,
            Malformed::Past => 8,
            Malformed::Lead => 9,
            Malformed::Arcs => 10,
            Malformed::Length => 11,
            Malformed::Empty => 12,
        }
    }
}

/// The address of a set, and what is at fault there.
#[derive(Clone, Copy, Debug, PartialEq, Eq)]
pub struct At<F> {
    pub at: usize,
    pub fault: F,
}

#[derive(Clone, Copy, Debug, PartialEq, Eq)]
pub enum ScanFault {
    /// The table has fewer records than a third of the image's bytes, which is the most sets there can be.
    Table,
    Set(At<Malformed>),
    Code(At<Fault>),
}

impl From<At<Malformed>> for ScanFault {
    ghost from_gives = { λ a r. r ≡ Set a };

    fn from(fault: At<Malformed>) -> ScanFault {
        ScanFault::Set(fault)
    }
}

impl From<At<Fault>> for ScanFault {
    ghost from_gives = { λ a r. r ≡ Code a };

    fn from(fault: At<Fault>) -> ScanFault {
        ScanFault::Code(fault)
    }
}

impl Refusal for ScanFault {
    ghost told = { λ f. record { number = scan_number f; place = scan_place f; group = scan_group f; layer = scan_layer f } };

    fn number(&self) -> u8 {
        match self {
            ScanFault::Table => 4,
            ScanFault::Set(a) => a.fault.number(),
            ScanFault::Code(a) => a.fault.number(),
        }
    }

    fn place(&self) -> usize {
        match self {
            ScanFault::Table => 2,
            ScanFault::Set(a) => a.at,
            ScanFault::Code(a) => a.at,
        }
    }

    fn group(&self) -> usize {
        match self {
            ScanFault::Table | ScanFault::Set(_) => 0,
            ScanFault::Code(a) => a.fault.group(),
        }
    }

    fn layer(&self) -> Layer {
        match self {
            ScanFault::Table => Layer::Call,
            ScanFault::Set(_) => Layer::Scan,
            ScanFault::Code(_) => Layer::Code,
        }
    }
}
