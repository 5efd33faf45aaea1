// Why a dump has no listing, and the one line of it.
ghost use Rattle.std.specs.Prelude.{◌≡◌, Some};
ghost use Rattle.listing.specs.declared.refusals.Refused.TheVariants as why;
ghost use Rattle.listing.specs.Lines.{refused_text};
ghost use Rattle.listing.specs.Refusals.{refused_number, refused_place, refused_group, refused_layer};

use reading::ReadFault;
use std::fmt;
use tags::{DumpFault, Layer, Refusal};

/// Why a dump has no listing, in the order of its checks.
#[derive(Clone, Copy, Debug, PartialEq, Eq)]
pub enum Refused {
    Dump(DumpFault),
    /// A system byte that is not that of a tag without directory.
    System(u8),
    Reading(ReadFault),
}

impl From<DumpFault> for Refused {
    ghost from_gives = { λ f r. r ≡ why.Dump f };

    fn from(inner: DumpFault) -> Refused {
        Refused::Dump(inner)
    }
}

impl From<ReadFault> for Refused {
    ghost from_gives = { λ f r. r ≡ why.Reading f };

    fn from(inner: ReadFault) -> Refused {
        Refused::Reading(inner)
    }
}

impl Refusal for Refused {
    ghost told = { λ r. record { number = refused_number r; place = refused_place r; group = refused_group r; layer = refused_layer r } };

    fn number(&self) -> u8 {
        match self {
            Refused::Dump(fault) => fault.number(),
            Refused::System(_) => 5,
            Refused::Reading(fault) => fault.number(),
        }
    }

    fn place(&self) -> usize {
        match self {
            Refused::Dump(fault) => fault.place(),
            Refused::System(system) => usize::from(*system),
            Refused::Reading(fault) => fault.place(),
        }
    }

    fn group(&self) -> usize {
        match self {
            Refused::Dump(_) | Refused::System(_) => 0,
            Refused::Reading(fault) => fault.group(),
        }
    }

    fn layer(&self) -> Layer {
        match self {
            Refused::Dump(fault) => fault.layer(),
            Refused::System(_) => Layer::Call,
            Refused::Reading(fault) => fault.layer(),
        }
    }
}

/// The one line of a refusal, whatever refused.
#[derive(Clone, Copy, Debug, PartialEq, Eq)]
pub struct RefusedLine {
    pub number: u8,
    pub place: usize,
    pub group: usize,
}

impl fmt::Display for RefusedLine {
    ghost output = { λ r. Some (refused_text r.number r.place r.group) };

    fn fmt<W: fmt::Write>(&self, f: &mut fmt::Formatter<W>) -> fmt::Result {
        let RefusedLine {
            number,
            place,
            group,
        } = *self;
        write!(f, "refused {number} {place} {group}")
    }
}

impl fmt::Display for Refused {
    ghost output = { λ r. Some (refused_text (refused_number r) (refused_place r) (refused_group r)) };

    fn fmt<W: fmt::Write>(&self, f: &mut fmt::Formatter<W>) -> fmt::Result {
        let number = self.number();
        let place = self.place();
        let group = self.group();
        write!(
            f,
            "{}",
            RefusedLine {
                number,
                place,
                group
            }
        )
    }
}
