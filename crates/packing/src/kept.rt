// Bytes in the groups of a code.
ghost use Rattle.std.specs.Prelude.{◌≡◌, ℕ, ◌*◌, ◌/◌, ◌<◌, ◌≤◌, length, take, slice_index};
ghost use Rattle.codes.specs.Table.{whole, remaining};

use super::code::Code;

/// Packed bytes, and how many groups of them are left without a last one that is padding.
#[derive(Drop)]
pub(crate) struct Kept<'a, C: Code> {
    pub(crate) code: &'a C,
    pub(crate) bytes: &'a [u8],
    pub(crate) count: usize,
    ghost inside: { count ≤ length bytes.now * 8 / C.wide code.now },
    ghost left: { take count (whole (C.wide code.now) bytes.now) ≡ remaining (C.wide code.now) (C.pad code.now) bytes.now },
    ghost octets: { (i : ℕ) → i < length bytes.now → slice_index bytes.now i < 256 },
}
