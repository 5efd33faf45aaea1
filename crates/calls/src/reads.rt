// Reading one object.
ghost use Rattle.std.specs.Prelude.{◌≡◌, ◌≤◌, true, [], ◌∷◌, length, drop, None};
ghost use Rattle.codes.specs.Table.{unpacked_code};
ghost use Rattle.packing.specs.Packing.{Unpacks};
ghost use Rattle.tags.specs.Tags.{bytes};
ghost use Rattle.sets.specs.Scans.{next};
ghost use Rattle.sets.specs.Objects.{unpacked};
ghost use Rattle.sets.specs.Readings.{found};
ghost use Rattle.scan.specs.Tables.{records};
ghost use Rattle.calls.specs.Rows.{first, Answers, rooms};
ghost use Rattle.calls.specs.Working.{work};
ghost use Rattle.calls.specs.Starts.{worked};
ghost use Rattle.calls.specs.Reads.{shows_set, object_shown, object_named, output_row, take_rows, read_rows, Takes, put_out};

use super::finds::{check_identifier, find};
use super::starts::prepare;
use codes::Compaction;
use drivers::Driver;
use packing::{UnpackFault, unpack};
use scan::{Scanned, SetRecord, SetView, scan_image, step};
use states::CallFault;

// The object of a set that a step shows, at the front of the output.
fn unpack_set(set: SetView, output: &mut [u8]) -> Result<usize, UnpackFault>
    requires { set.place.code ≤ 7 }
    ensures { Unpacks (unpacked_code set.entry.place.code set.entry.object.now) output.old output.new result }
{
    let code = Compaction::try_from(set.place.code).unwrap();
    unpack(code, set.object, output)
}

// The object of the set at an address, at the front of the output.
fn unpack_at(image: &[u8], at: usize, output: &mut [u8]) -> Result<usize, CallFault>
    requires { shows_set (next unpacked (drop at image.now)) ≡ true }
    ensures answer { Answers (output_row (object_shown (next unpacked (drop at image.now))) (length output.old) ∷ []) (λ n. n ≡ length (object_shown (next unpacked (drop at image.now)))) result }
    ensures after { output.new ≡ put_out (first (output_row (object_shown (next unpacked (drop at image.now))) (length output.old) ∷ [])) (object_shown (next unpacked (drop at image.now))) output.old }
{
    let Ok(Scanned::Set(set)) = step(image, at) else {
        unreachable!()
    };
    // Stays: handed on by `map_err`, a closure would not know that the scan found no fault in the code.
    match unpack_set(set, output) {
        Ok(long) => Ok(long),
        Err(UnpackFault::Short(needed)) => Err(CallFault::Output(needed)),
        Err(UnpackFault::Code(_)) => unreachable!(),
    }
}

// The object of the first set that an identifier names, at the front of the output.
fn take_object(
    image: &[u8],
    sets: &[SetRecord],
    identifier: &[u8],
    output: &mut [u8],
) -> Result<(usize, bool), CallFault>
    requires { sets.now ≡ records (found image.now) }
    ensures answer { Answers (take_rows identifier.now (found image.now) (length output.old)) (Takes identifier.now (found image.now)) result }
    ensures after { output.new ≡ put_out (first (take_rows identifier.now (found image.now) (length output.old))) (object_named identifier.now (found image.now)) output.old }
{
    check_identifier(identifier)?;
    let hit = find(image, sets, identifier).ok_or(CallFault::Absent)?;
    let long = unpack_at(image, sets[hit.index].at, output)?;
    Ok((long, hit.again))
}

/// The object of an identifier, at the front of the output: its length, and whether the identifier occurs again, of
/// which the first set is taken. It scans, but looks neither at locks nor for repeated identifiers.
pub fn read<D: Driver>(
    d: &mut D,
    image: &mut [u8],
    table: &mut [SetRecord],
    scratch: &mut [u8],
    identifier: &[u8],
    output: &mut [u8],
) -> Result<(usize, bool), CallFault>
    ensures answer { Answers (read_rows (D.Driver.tag d.old) (rooms (length image.old) (length table.old) (length scratch.old)) identifier.now (length output.old)) (Takes identifier.now (found (bytes (D.Driver.tag d.old)))) result }
    ensures output { output.new ≡ put_out (first (read_rows (D.Driver.tag d.old) (rooms (length image.old) (length table.old) (length scratch.old)) identifier.now (length output.old))) (object_named identifier.now (found (bytes (D.Driver.tag d.old)))) output.old }
    ensures after { work image.new table.new scratch.new ≡ worked (D.Driver.tag d.old) None (D.Driver.tag d.old) (work image.old table.old scratch.old) }
    ensures same { D.Driver.tag d.new ≡ D.Driver.tag d.old }
{
    let here = prepare(d, None, image, table.len(), scratch)?;
    let image = &image[..here.shape.count * here.shape.size];
    let tally = scan_image(image, table)?;
    take_object(image, &table[..tally.sets], identifier, output)
}
