// The interface of the codes.
ghost use Rattle.std.specs.Prelude.{◌≡◌, ℕ, ◌*◌, ◌/◌, ◌^◌, ◌<◌, ◌≤◌, true, List, length, take, Result, slice_index};
ghost use Rattle.std.specs.Int.Digits.{AllBelowBase};
ghost use Rattle.codes.specs.declared.fault.Fault.{Fault};
ghost use Rattle.codes.specs.Bits.{packed};
ghost use Rattle.codes.specs.Table.{permitted, packed_code, unpacked_code, whole};
ghost use Rattle.packing.specs.Coded.{unpacked_by};
ghost use Rattle.packing.specs.Packing.{said, Measured};

use super::widths::Width;
use codes::Fault;

// A code, as groups of 4 to 8 bits: an object gives groups, and groups give an object or a fault.
pub(crate) trait Code {
    // its number in the table, the bits of a group and the padding group
    ghost listed: { Self → ℕ };

    ghost wide: { Self → ℕ };

    ghost pad: { Self → ℕ };

    // the groups of an object, and the object of groups
    ghost spelled: { Self → List ℕ → List ℕ };

    ghost meant: { Self → List ℕ → Result (List ℕ) Fault };

    fn width(&self) -> Width
        ensures { result.bits ≡ wide self.now };

    fn padding(&self) -> u8
        ensures { result ≡ pad self.now };

    fn suits(&self, object: &[u8]) -> bool
        ensures { result ≡ permitted (listed self.now) object.now };

    fn count(&self, object: &[u8]) -> usize
        requires { permitted (listed self.now) object.now ≡ true }
        ensures value { result ≡ length (spelled self.now object.now) }
        ensures bound { result ≤ length object.now };

    fn group(&self, object: &[u8], i: usize) -> u8
        requires suited { permitted (listed self.now) object.now ≡ true }
        requires inside { i < length (spelled self.now object.now) }
        ensures { result ≡ slice_index (spelled self.now object.now) i };

    // The length of the object that the first n groups of bytes mean.
    fn length(&self, bytes: &[u8], n: usize) -> Result<usize, Fault>
        requires { n ≤ length bytes.now * 8 / wide self.now }
        ensures { Measured (meant self.now (take n (whole (wide self.now) bytes.now))) result };

    // One byte of that object.
    fn byte(&self, bytes: &[u8], n: usize, i: usize) -> u8
        requires inside { n ≤ length bytes.now * 8 / wide self.now }
        requires here { i < length (said (meant self.now (take n (whole (wide self.now) bytes.now)))) }
        ensures { result ≡ slice_index (said (meant self.now (take n (whole (wide self.now) bytes.now)))) i };

    ghost sized: { (c : Self) → (4 ≤ wide c) × (wide c ≤ 8) × (pad c < 2 ^ wide c) };

    ghost packs: { (c : Self) (x : List ℕ) → permitted (listed c) x ≡ true → AllBelowBase 256 x → AllBelowBase (2 ^ wide c) (spelled c x) × (packed (wide c) (pad c) (spelled c x) ≡ packed_code (listed c) x) };

    ghost unpacks: { (c : Self) (bs : List ℕ) → AllBelowBase 256 bs → unpacked_code (listed c) bs ≡ unpacked_by (wide c) (pad c) (meant c) bs };
}
