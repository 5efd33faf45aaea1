// The table of sets, filled from an image.
ghost use Rattle.std.specs.Prelude.{◌≡◌, length};
ghost use Rattle.sets.specs.Scans.{scan};
ghost use Rattle.sets.specs.Objects.{unpacked};
ghost use Rattle.sets.specs.Laws.{TilesScan};
ghost use Rattle.scan.specs.Tables.{answered, answer, after, CodesTold, Tiling};

use super::faults::ScanFault;
use super::steps::step;
use super::views::{Scanned, SetRecord};

/// How many sets an image holds, and how many bytes are free behind the last.
#[derive(Clone, Copy, Debug, PartialEq, Eq)]
pub struct Tally {
    pub sets: usize,
    pub free: usize,
}

/// Fills the front of the table with the records of the image's sets: all of them, or those before the first fault.
/// A set has three bytes or more, so a table of a third of the image's bytes has room for all; a shorter one is
/// refused and left as it was.
pub fn scan_image(image: &[u8], table: &mut [SetRecord]) -> Result<Tally, ScanFault>
    ensures value { answered result ≡ answer (length table.old) image.now }
    ensures after { table.new ≡ after image.now table.old }
    ensures codes { CodesTold image.now }
    ensures tiling { Tiling image.now }
    ensures tiled { TilesScan }
{
    if table.len() < image.len() / 3 {
        return Err(ScanFault::Table);
    }
    // Stays: tiles of the image end the scan; an iterator over them would be a type for this loop, and two counts would stay.
    let mut at = 0;
    let mut sets = 0;
    let mut used = 0;
    loop {
        match step(image, at)? {
            Scanned::End => return Ok(Tally {
                sets,
                free: image.len() - used,
            }),
            Scanned::Filler => at += 1,
            Scanned::Set(set) => {
                table[sets] = set.place;
                sets += 1;
                at += set.place.size;
                used = at;
            }
        }
    }
}
