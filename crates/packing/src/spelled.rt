// An object in the groups of a code.
ghost use Rattle.std.specs.Prelude.{◌≡◌, ℕ, ◌<◌, ◌≤◌, true, length, slice_index};
ghost use Rattle.codes.specs.Table.{permitted};

use super::code::Code;

/// An object that a code is for, and how many groups it has in that code.
#[derive(Drop)]
pub(crate) struct Spelled<'a, C: Code> {
    pub(crate) code: &'a C,
    pub(crate) object: &'a [u8],
    pub(crate) count: usize,
    ghost suited: { permitted (C.listed code.now) object.now ≡ true },
    ghost counted: { count ≡ length (C.spelled code.now object.now) },
    ghost few: { count ≤ length object.now },
    ghost bytes: { (i : ℕ) → i < length object.now → slice_index object.now i < 256 },
}
