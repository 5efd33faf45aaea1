// Why a memory reads as no list.
ghost use Rattle.std.specs.Prelude.{◌≡◌};
ghost use Rattle.reading.specs.declared.faults.ReadFault.TheVariants.{Scan};
ghost use Rattle.reading.specs.Faults.{read_number, read_place, read_group, read_layer};

use scan::ScanFault;
use tags::{Layer, Refusal};

#[derive(Clone, Copy, Debug, PartialEq, Eq)]
pub enum ReadFault {
    /// Blocks of no bytes.
    Shape,
    Scan(ScanFault),
    /// The lowest locked block with a byte of no set, or of a set that touches an open block.
    Stray(usize),
    /// The address of the first set whose identifier stood already.
    Repeat(usize),
}

impl From<ScanFault> for ReadFault {
    ghost from_gives = { λ f r. r ≡ Scan f };

    fn from(inner: ScanFault) -> ReadFault {
        ReadFault::Scan(inner)
    }
}

impl Refusal for ReadFault {
    ghost told = { λ f. record { number = read_number f; place = read_place f; group = read_group f; layer = read_layer f } };

    fn number(&self) -> u8 {
        match self {
            ReadFault::Shape => 2,
            ReadFault::Scan(fault) => fault.number(),
            ReadFault::Stray(_) => 16,
            ReadFault::Repeat(_) => 18,
        }
    }

    fn place(&self) -> usize {
        match self {
            ReadFault::Shape => 0,
            ReadFault::Scan(fault) => fault.place(),
            ReadFault::Stray(block) => *block,
            ReadFault::Repeat(at) => *at,
        }
    }

    fn group(&self) -> usize {
        match self {
            ReadFault::Scan(fault) => fault.group(),
            ReadFault::Shape | ReadFault::Stray(_) | ReadFault::Repeat(_) => 0,
        }
    }

    fn layer(&self) -> Layer {
        match self {
            ReadFault::Scan(fault) => fault.layer(),
            ReadFault::Shape | ReadFault::Stray(_) | ReadFault::Repeat(_) => Layer::Call,
        }
    }
}
