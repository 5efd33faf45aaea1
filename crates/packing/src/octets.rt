// Plain octets: groups of eight bits, which are the bytes.
ghost use Rattle.std.specs.Prelude.{◌≡◌, true, Ok};
ghost use Rattle.codes.specs.Numbers.{code_number};
ghost use Rattle.packing.specs.Coded.{is_plain};
ghost use Rattle.packing.specs.Widths.{octets_code};
ghost use Rattle.packing.specs.Plain.{plain, octets_sized, plain_packs, plain_unpacks};

use super::code::Code;
use super::widths::Width;
use codes::{Compaction, Fault, Kind};

#[derive(Clone, Copy)]
pub(crate) struct Octets {
    code: Compaction,
    ghost ok: { is_plain (code_number code) ≡ true },
}

impl Octets {
    /// The code of a kind that keeps the bytes.
    pub(crate) fn of(kind: Kind) -> Self
        ensures { code_number result.code ≡ octets_code kind }
    {
        match kind {
            Kind::Application => Octets {
                code: Compaction::ApplicationDefined,
            },
            Kind::Compact => Octets {
                code: Compaction::OctetString,
            },
            Kind::Utf8 => Octets {
                code: Compaction::Utf8String,
            },
        }
    }
}

impl Code for Octets {
    ghost listed = { λ c. code_number c.code };

    ghost wide = { λ _. 8 };

    ghost pad = { λ _. 0 };

    ghost spelled = { λ _ x. x };

    ghost meant = { λ _ gs. Ok gs };

    ghost sized = { λ _. octets_sized };

    ghost packs = { λ c x h u. (u, plain_packs (code_number c.code) x (plain (code_number c.code) c.ok) u) };

    ghost unpacks = { λ c bs u. plain_unpacks (code_number c.code) bs (plain (code_number c.code) c.ok) u };

    fn width(&self) -> Width {
        Width::BYTE
    }

    fn padding(&self) -> u8 {
        0
    }

    fn suits(&self, _object: &[u8]) -> bool {
        true
    }

    fn count(&self, object: &[u8]) -> usize {
        object.len()
    }

    fn group(&self, object: &[u8], i: usize) -> u8 {
        object[i]
    }

    fn length(&self, _bytes: &[u8], n: usize) -> Result<usize, Fault> {
        Ok(n)
    }

    fn byte(&self, bytes: &[u8], _n: usize, i: usize) -> u8 {
        bytes[i]
    }
}
