// An alphabet: bytes in a row, each standing for its low bits. One implementation over the width.
ghost use Rattle.std.specs.Prelude.{◌≡◌};
ghost use Rattle.codes.specs.Numbers.{code_number};
ghost use Rattle.codes.specs.Table.{low_bits, letter};
ghost use Rattle.packing.specs.Any.{row};
ghost use Rattle.packing.specs.Coded.{lettered};
ghost use Rattle.packing.specs.Widths.{width_code};
ghost use Rattle.packing.specs.Rows.{row_sized, row_packs, row_unpacks};

use super::code::Code;
use super::groups::all_within;
use super::rows::Alphabet;
use super::widths::Width;
use codes::{Compaction, Fault};

/// How many bits a letter of an alphabet takes.
#[derive(Clone, Copy)]
pub(crate) enum Letters {
    Four,
    Five,
    Six,
    Seven,
}

impl Alphabet {
    /// The alphabet of a width, as the table of codes has it.
    pub(crate) fn of(letters: Letters) -> Self
        ensures { code_number result.code ≡ width_code letters }
    {
        match letters {
            Letters::Four => Alphabet {
                code: Compaction::Numeric,
                width: Width { bits: 4 },
                padding: 15,
                least: 2,
                first: 0x30,
                last: 0x39,
                blank: false,
            },
            Letters::Five => Alphabet {
                code: Compaction::FiveBit,
                width: Width { bits: 5 },
                padding: 0,
                least: 3,
                first: 0x41,
                last: 0x5f,
                blank: false,
            },
            Letters::Six => Alphabet {
                code: Compaction::SixBit,
                width: Width { bits: 6 },
                padding: 32,
                least: 4,
                first: 0x20,
                last: 0x5f,
                blank: true,
            },
            Letters::Seven => Alphabet {
                code: Compaction::SevenBit,
                width: Width { bits: 7 },
                padding: 127,
                least: 8,
                first: 0x00,
                last: 0x7e,
                blank: false,
            },
        }
    }

    // The byte that a group stands for: the first of the alphabet, or the next above it, with those low bits.
    fn letter(&self, group: u8) -> u8
        ensures { result ≡ letter self.now.width.bits self.now.first group }
    {
        let size = 1u32 << self.width.bits;
        let first = u32::from(self.first);
        (first + (u32::from(group) + (size - first % size)) % size) as u8
    }
}

impl Code for Alphabet {
    ghost listed = { λ c. code_number c.code };

    ghost wide = { λ c. c.width.bits };

    ghost pad = { λ c. c.padding };

    ghost spelled = { λ c x. low_bits c.width.bits x };

    ghost meant = { λ c gs. lettered c.width.bits c.first c.last gs };

    ghost sized = { λ c. row_sized (row c) };

    ghost packs = { λ c x h u. row_packs (row c) x };

    ghost unpacks = { λ c bs u. row_unpacks (row c) bs };

    fn width(&self) -> Width {
        self.width
    }

    fn padding(&self) -> u8 {
        self.padding
    }

    fn suits(&self, object: &[u8]) -> bool {
        let n = object.len();
        if n < self.least || !all_within(self.first, self.last, object) {
            return false;
        }
        if self.blank && n % 4 == 0 {
            return object[n - 1] != 0x20;
        }
        true
    }

    fn count(&self, object: &[u8]) -> usize {
        object.len()
    }

    fn group(&self, object: &[u8], i: usize) -> u8 {
        (u32::from(object[i]) % (1 << self.width.bits)) as u8
    }

    fn length(&self, bytes: &[u8], n: usize) -> Result<usize, Fault> {
        match (0..n).find(|i| self.letter(self.width.group_of(bytes, *i)) > self.last) {
            Some(i) => Err(Fault::NoCharacter(i)),
            None => Ok(n),
        }
    }

    fn byte(&self, bytes: &[u8], _n: usize, i: usize) -> u8 {
        self.letter(self.width.group_of(bytes, i))
    }
}
