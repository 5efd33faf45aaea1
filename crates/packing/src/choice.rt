// The codes by their kinds and numbers: choosing one, packing and unpacking by it.
ghost use Rattle.std.specs.Prelude.{◌≡◌, find};
ghost use Rattle.codes.specs.Table.{permitted, first_code, unpacked_code};
ghost use Rattle.codes.specs.Numbers.{kind_number, code_number};
ghost use Rattle.packing.specs.declared.choice.UnpackFault.TheVariants.{Code};
ghost use Rattle.packing.specs.Packing.{Packs, PacksFirst, Plans, ComesBack, NoneShorter, Shortest, Measured, Tells, Unpacks};

use super::any::AnyCode;
use super::texts::is_sized;
use codes::{Compaction, Fault, Kind};

/// Why an object is not packed.
#[derive(Clone, Copy, Debug, PartialEq, Eq)]
pub enum PackFault {
    /// 20: it has no byte, or over 2,048
    Size,
    /// the code is not for such an object
    NotPermitted,
    /// the output is shorter than the packed object, which has so many bytes
    TooShort(usize),
}

/// Why packed bytes are not unpacked.
#[derive(Clone, Copy, Debug, PartialEq, Eq)]
pub enum UnpackFault {
    /// 13 to 15
    Code(Fault),
    /// 26: the output is shorter than the object, which has so many bytes
    Short(usize),
}

impl From<Fault> for UnpackFault {
    ghost from_gives = { λ f r. r ≡ Code f };

    fn from(fault: Fault) -> UnpackFault {
        UnpackFault::Code(fault)
    }
}

/// The code that an object is packed by, and how many bytes it then has.
#[derive(Clone, Copy, Debug, PartialEq, Eq)]
pub struct Packed {
    pub code: Compaction,
    pub length: usize,
}

// The codes of a compact object that are tried before plain octets, in this order.
const TRIED: [Compaction; 5] = [
    Compaction::Integer,
    Compaction::Numeric,
    Compaction::FiveBit,
    Compaction::SixBit,
    Compaction::SevenBit,
];

fn suits(code: Compaction, object: &[u8]) -> bool
    ensures { result ≡ permitted (code_number code) object.now }
{
    AnyCode::from(code).suits(object)
}

fn first_suited(codes: &[Compaction], object: &[u8]) -> Option<Compaction>
    ensures { result ≡ find (λ c. permitted (code_number c) object.now) codes.now }
{
    codes.iter().copied().find(|code| suits(*code, object))
}

// The first permitted code of a compact object.
fn choose_compact(object: &[u8]) -> Compaction
    ensures { code_number result ≡ first_code 1 object.now }
{
    first_suited(&TRIED, object).unwrap_or(Compaction::OctetString)
}

/// The first permitted code of a kind and object. No permitted code of the kind packs shorter.
pub fn choose(kind: Kind, object: &[u8]) -> Compaction
    ensures value { code_number result ≡ first_code (kind_number kind) object.now }
    ensures least { Shortest (code_number result) (kind_number kind) object.now }
{
    match kind {
        Kind::Application => Compaction::ApplicationDefined,
        Kind::Compact => choose_compact(object),
        Kind::Utf8 => Compaction::Utf8String,
    }
}

/// The code that an object of a kind is packed by, and how many bytes it then has; nothing is written.
pub fn plan(kind: Kind, object: &[u8]) -> Result<Packed, PackFault>
    ensures { Plans (kind_number kind) object.now result }
{
    if !is_sized(object) {
        return Err(PackFault::Size);
    }
    let code = choose(kind, object);
    let length = AnyCode::from(code).packed_length(object);
    Ok(Packed { code, length })
}

/// The object packed by a code at the front of `out`, and how many bytes that takes. It unpacks to the object.
pub fn pack_as(code: Compaction, object: &[u8], out: &mut [u8]) -> Result<usize, PackFault>
    ensures value { Packs (code_number code) object.now out.old out.new result }
    ensures back { ComesBack (code_number code) object.now out.new result }
{
    AnyCode::from(code).pack(object, out)
}

/// The object packed by the first permitted code of its kind at the front of `out`. No bytes that say it are fewer.
pub fn pack(kind: Kind, object: &[u8], out: &mut [u8]) -> Result<Packed, PackFault>
    ensures value { PacksFirst (kind_number kind) object.now out.old out.new result }
    ensures least { NoneShorter (kind_number kind) object.now result }
{
    let code = choose(kind, object);
    let length = pack_as(code, object, out)?;
    Ok(Packed { code, length })
}

/// The length of the object that packed bytes say, or what is wrong with them.
pub fn measure(code: Compaction, bytes: &[u8]) -> Result<usize, Fault>
    ensures value { Measured (unpacked_code (code_number code) bytes.now) result }
    ensures told { Tells (code_number code) bytes.now result }
{
    AnyCode::from(code).measure(bytes)
}

/// The object that packed bytes say at the front of `out`, and its length; `out` is as before where there is none.
pub fn unpack(code: Compaction, bytes: &[u8], out: &mut [u8]) -> Result<usize, UnpackFault>
    ensures { Unpacks (unpacked_code (code_number code) bytes.now) out.old out.new result }
{
    AnyCode::from(code).unpack(bytes, out)
}
