// One step of the scan.
ghost use Rattle.std.specs.Prelude.{◌≡◌, ◌+◌, ◌%◌, ◌<◌, ◌≤◌, length, drop, slice_index};
ghost use Rattle.codes.specs.Table.{unpacked_code};
ghost use Rattle.packing.specs.Packing.{Measured};
ghost use Rattle.sets.specs.Parsing.{body, parse};
ghost use Rattle.sets.specs.Parsing as parsing;
ghost use Rattle.sets.specs.Scans.{next};
ghost use Rattle.sets.specs.Objects.{unpacked};
ghost use Rattle.sets.specs.Laws.{SmallestComesBack};
ghost use Rattle.scan.specs.Views.{told, Shows};
ghost use Rattle.scan.specs.Inner.{framed, Frames};

use super::faults::{At, Malformed, ScanFault};
use super::readers::Reader;
use super::views::{Scanned, SetRecord, SetView};
use codes::{Compaction, Fault};
use packing::measure;

// A set whose precursor has a nibble.
fn read_set<'a>(image: &'a [u8], at: usize) -> Result<Scanned<'a>, Malformed>
    requires inside { at < length image.now }
    requires nibble { 1 ≤ slice_index image.now at % 16 }
    ensures value { framed result ≡ parsing.told (body (slice_index image.now at) (drop (at + 1) image.now)) }
    ensures cases { Frames at result }
{
    let precursor = image[at];
    let mut reader = Reader {
        rest: &image[at + 1..],
    };
    let extra = reader.offset(precursor)?;
    let identifier = reader.identifier(precursor % 16)?;
    let id_end = image.len() - reader.rest.len();
    let object_len = reader.length()?;
    let object_at = image.len() - reader.rest.len();
    let object = reader.run(object_len)?;
    let pad = extra.saturating_sub(1);
    reader.run(pad)?;
    let place = SetRecord {
        number: identifier.number(),
        id_at: identifier.part_at(id_end),
        id_len: identifier.len(),
        object_at,
        object_len,
        at,
        size: object_at + object_len + pad - at,
        code: precursor / 16 % 8,
    };
    Ok(Scanned::Set(SetView {
        place,
        extra,
        identifier,
        object,
    }))
}

// What stands at an address, its code not looked at.
fn frame<'a>(image: &'a [u8], at: usize) -> Result<Scanned<'a>, Malformed>
    ensures value { framed result ≡ parse (drop at image.now) }
    ensures cases { Frames at result }
{
    if at >= image.len() || image[at] == 0 {
        return Ok(Scanned::End);
    }
    if image[at] == 0x80 {
        return Ok(Scanned::Filler);
    }
    if image[at] % 16 == 0 {
        return Err(Malformed::Nibble);
    }
    read_set(image, at)
}

// How long an object is that a code of this number says.
fn examine(code: u8, object: &[u8]) -> Result<usize, Fault>
    requires { code ≤ 7 }
    ensures { Measured (unpacked_code code object.now) result }
{
    measure(Compaction::try_from(code).unwrap(), object)
}

/// What stands at an address, or the first fault of the set there: 7 to 12 in the order of its bytes, its code last.
/// At or past the end of the image that is the end.
pub fn step<'a>(image: &'a [u8], at: usize) -> Result<Scanned<'a>, ScanFault>
    ensures value { told result ≡ next unpacked (drop at image.now) }
    ensures cases { Shows image.now at result }
    ensures written { SmallestComesBack }
{
    // Case by case: handed on whole, a filler too would be copied at the size of a set.
    match frame(image, at) {
        Ok(Scanned::End) => Ok(Scanned::End),
        Ok(Scanned::Filler) => Ok(Scanned::Filler),
        Ok(Scanned::Set(set)) => {
            examine(set.place.code, set.object).map_err(|fault| At { at, fault })?;
            Ok(Scanned::Set(set))
        }
        Err(fault) => Err(ScanFault::from(At { at, fault })),
    }
}
