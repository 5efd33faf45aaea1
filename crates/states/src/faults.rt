// Why a call is declined.
ghost use Rattle.std.specs.Prelude.{◌≡◌};
ghost use Rattle.reading.specs.declared.faults.ReadFault.TheVariants.{Scan};
ghost use Rattle.states.specs.declared.faults.CallFault.TheVariants.{Reading, Driver as OfDriver};
ghost use Rattle.states.specs.Faults.{lent_place, call_number, call_place, call_group, call_layer, whole_fault};

use drivers::{DriverFault, WholeFault};
use reading::ReadFault;
use scan::ScanFault;
use tags::{Layer, Refusal};

/// The working memory that a call is lent.
#[derive(Clone, Copy, Debug, PartialEq, Eq)]
pub enum Lent {
    Image,
    Table,
    Scratch,
}

impl Lent {
    pub fn place(self) -> usize
        ensures value { result ≡ lent_place self }
    {
        match self {
            Lent::Image => 1,
            Lent::Table => 2,
            Lent::Scratch => 3,
        }
    }
}

#[derive(Clone, Copy, Debug, PartialEq, Eq)]
pub enum CallFault {
    /// A shape outside the limits.
    Shape,
    /// Too little working memory.
    Short(Lent),
    /// The system byte, which is none of a tag without directory.
    System(u8),
    /// Shape or system byte are not those that the state noted.
    Noted,
    /// The memory reads as no list.
    Reading(ReadFault),
    /// To be formatted, with this the lowest locked block.
    Locked(usize),
    /// The identifier is not 1 to 32 bytes of whole arcs.
    Identifier,
    /// The object has no byte, or over 2,048.
    Size,
    /// There is no such kind of object.
    Kind,
    /// The identifier stands already, in the set at this address.
    Present(usize),
    /// No set has the identifier.
    Absent,
    /// The set at this address is sealed.
    Sealed(usize),
    /// The set is not open, or not alone on exactly the pledged blocks.
    Pledged,
    /// The output is shorter than the object, which has so many bytes.
    Output(usize),
    /// The gap is too small.
    Room,
    /// The driver refused.
    Driver(DriverFault),
}

impl From<ReadFault> for CallFault {
    ghost from_gives = { λ f r. r ≡ Reading f };

    fn from(inner: ReadFault) -> CallFault {
        CallFault::Reading(inner)
    }
}

impl From<ScanFault> for CallFault {
    ghost from_gives = { λ f r. r ≡ Reading (Scan f) };

    fn from(inner: ScanFault) -> CallFault {
        CallFault::Reading(ReadFault::Scan(inner))
    }
}

impl From<DriverFault> for CallFault {
    ghost from_gives = { λ f r. r ≡ OfDriver f };

    fn from(inner: DriverFault) -> CallFault {
        CallFault::Driver(inner)
    }
}

impl From<WholeFault> for CallFault {
    ghost from_gives = { λ f r. r ≡ whole_fault f };

    fn from(inner: WholeFault) -> CallFault {
        match inner {
            WholeFault::Room(_) => CallFault::Short(Lent::Image),
            WholeFault::Driver(fault) => CallFault::Driver(fault),
        }
    }
}

impl Refusal for CallFault {
    ghost told = { λ f. record { number = call_number f; place = call_place f; group = call_group f; layer = call_layer f } };

    fn number(&self) -> u8 {
        match self {
            CallFault::Shape => 2,
            CallFault::Short(_) => 4,
            CallFault::System(_) => 5,
            CallFault::Noted => 6,
            CallFault::Reading(fault) => fault.number(),
            CallFault::Locked(_) => 17,
            CallFault::Identifier => 19,
            CallFault::Size => 20,
            CallFault::Kind => 21,
            CallFault::Present(_) => 22,
            CallFault::Absent => 23,
            CallFault::Sealed(_) => 24,
            CallFault::Pledged => 25,
            CallFault::Output(_) => 26,
            CallFault::Room => 27,
            CallFault::Driver(fault) => fault.number(),
        }
    }

    fn place(&self) -> usize {
        match self {
            CallFault::Short(lent) => lent.place(),
            CallFault::System(byte) => usize::from(*byte),
            CallFault::Reading(fault) => fault.place(),
            CallFault::Locked(block) => *block,
            CallFault::Present(at) | CallFault::Sealed(at) => *at,
            CallFault::Output(needed) => *needed,
            CallFault::Driver(fault) => fault.place(),
            CallFault::Shape
            | CallFault::Noted
            | CallFault::Identifier
            | CallFault::Size
            | CallFault::Kind
            | CallFault::Absent
            | CallFault::Pledged
            | CallFault::Room => 0,
        }
    }

    fn group(&self) -> usize {
        match self {
            CallFault::Reading(fault) => fault.group(),
            _ => 0,
        }
    }

    fn layer(&self) -> Layer {
        match self {
            CallFault::Reading(fault) => fault.layer(),
            CallFault::Driver(fault) => fault.layer(),
            _ => Layer::Call,
        }
    }
}
