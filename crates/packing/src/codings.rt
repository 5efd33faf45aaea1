// The code of the table that a number of a set stands for.
ghost use Rattle.std.specs.Prelude.{◌≡◌, true, length};
ghost use Rattle.codes.specs.Table.{permitted, packed_code, unpacked_code};
ghost use Rattle.packing.specs.Packing.{Packs, Measured, Unpacks};
ghost use Rattle.codes.specs.Numbers.{code_number};
ghost use Rattle.packing.specs.Any.{any_listed};

use super::alphabet::Letters;
use super::any::AnyCode;
use super::choice::{PackFault, UnpackFault};
use super::code::Code;
use super::integer::Integer;
use super::octets::Octets;
use super::rows::Alphabet;
use super::spelled::Spelled;
use super::texts::{measure_with, pack_with, unpack_with};
use codes::{Compaction, Fault, Kind};

impl From<Compaction> for AnyCode {
    ghost from_gives = { λ c r. any_listed r ≡ code_number c };

    fn from(code: Compaction) -> AnyCode {
        match code {
            Compaction::ApplicationDefined => AnyCode::Octets(Octets::of(Kind::Application)),
            Compaction::Integer => AnyCode::Integer(Integer),
            Compaction::Numeric => AnyCode::Letters(Alphabet::of(Letters::Four)),
            Compaction::FiveBit => AnyCode::Letters(Alphabet::of(Letters::Five)),
            Compaction::SixBit => AnyCode::Letters(Alphabet::of(Letters::Six)),
            Compaction::SevenBit => AnyCode::Letters(Alphabet::of(Letters::Seven)),
            Compaction::OctetString => AnyCode::Octets(Octets::of(Kind::Compact)),
            Compaction::Utf8String => AnyCode::Octets(Octets::of(Kind::Utf8)),
        }
    }
}

// A call goes to the code that it is once, and then works with that alone.
// Stays: five calls go there; one match for all would hand out a `&dyn Code`, which no function here does.
impl AnyCode {
    pub(crate) fn suits(self, object: &[u8]) -> bool
        ensures { result ≡ permitted (any_listed self) object.now }
    {
        match self {
            AnyCode::Octets(code) => code.suits(object),
            AnyCode::Integer(code) => code.suits(object),
            AnyCode::Letters(code) => code.suits(object),
        }
    }

    // The bytes that an object takes when it is packed.
    pub(crate) fn packed_length(self, object: &[u8]) -> usize
        requires { permitted (any_listed self) object.now ≡ true }
        ensures { result ≡ length (packed_code (any_listed self) object.now) }
    {
        match self {
            AnyCode::Octets(code) => Spelled::of(&code, object).length(),
            AnyCode::Integer(code) => Spelled::of(&code, object).length(),
            AnyCode::Letters(code) => Spelled::of(&code, object).length(),
        }
    }

    pub(crate) fn pack(self, object: &[u8], out: &mut [u8]) -> Result<usize, PackFault>
        ensures { Packs (any_listed self) object.now out.old out.new result }
    {
        match self {
            AnyCode::Octets(code) => pack_with(&code, object, out),
            AnyCode::Integer(code) => pack_with(&code, object, out),
            AnyCode::Letters(code) => pack_with(&code, object, out),
        }
    }

    pub(crate) fn measure(self, bytes: &[u8]) -> Result<usize, Fault>
        ensures { Measured (unpacked_code (any_listed self) bytes.now) result }
    {
        match self {
            AnyCode::Octets(code) => measure_with(&code, bytes),
            AnyCode::Integer(code) => measure_with(&code, bytes),
            AnyCode::Letters(code) => measure_with(&code, bytes),
        }
    }

    pub(crate) fn unpack(self, bytes: &[u8], out: &mut [u8]) -> Result<usize, UnpackFault>
        ensures { Unpacks (unpacked_code (any_listed self) bytes.now) out.old out.new result }
    {
        match self {
            AnyCode::Octets(code) => unpack_with(&code, bytes, out),
            AnyCode::Integer(code) => unpack_with(&code, bytes, out),
            AnyCode::Letters(code) => unpack_with(&code, bytes, out),
        }
    }
}
