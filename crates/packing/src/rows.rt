// A row of the table of codes: an alphabet.
ghost use Rattle.std.specs.Prelude.{◌≡◌, true};
ghost use Rattle.codes.specs.Numbers.{code_number};
ghost use Rattle.packing.specs.Coded.{is_alphabet};

use super::widths::Width;
use codes::Compaction;

/// Bytes in a row, each standing for its low bits.
#[derive(Clone, Copy)]
pub(crate) struct Alphabet {
    pub(crate) code: Compaction,
    pub(crate) width: Width,
    pub(crate) padding: u8,
    pub(crate) least: usize,
    pub(crate) first: u8,
    pub(crate) last: u8,
    // whether an object may not end in a blank where its groups fill whole bytes
    pub(crate) blank: bool,
    ghost ok: { is_alphabet (code_number code) width.bits padding least first last blank ≡ true },
}
