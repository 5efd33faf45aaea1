// How a call begins: the tag read whole, and what it holds checked.
ghost use Rattle.std.specs.Prelude.{◌≡◌, map, length, MatchResult};
ghost use Rattle.tags.specs.Dumps.{nonzero};
ghost use Rattle.calls.specs.Rows.{first, Answers, rooms, seen, start_rows};
ghost use Rattle.calls.specs.Working.{work, imaged, zeroed, unless};
ghost use Rattle.calls.specs.Starts.{begin_rows, worked, Begins};

use super::admission::{Rooms, admit};
use drivers::{Driver, read_all};
use reading::Memory;
use scan::{SetRecord, Tally};
use states::{CallFault, Noted};
use tags::Shape;

/// What the beginning of a call found.
#[derive(Clone, Copy, Debug)]
pub struct Begun {
    pub noted: Noted,
    /// A byte to each block, not zero where it is locked.
    // Stays: there is no heap; as many are meant as the noted shape has blocks.
    pub locks: [u8; 256],
    pub tally: Tally,
}

// Reads the tag whole and zeroes the scratch, unless one of the first rows holds.
pub(crate) fn prepare<D: Driver>(
    d: &mut D,
    noted: Option<Noted>,
    image: &mut [u8],
    table: usize,
    scratch: &mut [u8],
) -> Result<Noted, CallFault>
    ensures answer { Answers (start_rows (D.Driver.tag d.old) noted (rooms (length image.old) table (length scratch.old))) (λ s. s ≡ seen (D.Driver.tag d.old)) result }
    ensures image { image.new ≡ unless (first (start_rows (D.Driver.tag d.old) noted (rooms (length image.old) table (length scratch.old)))) image.old (imaged (D.Driver.tag d.old) image.old) }
    ensures scratch { scratch.new ≡ unless (first (start_rows (D.Driver.tag d.old) noted (rooms (length image.old) table (length scratch.old)))) scratch.old (zeroed scratch.old) }
    ensures same { D.Driver.tag d.new ≡ D.Driver.tag d.old }
{
    let lent = Rooms {
        image: image.len(),
        table,
        scratch: scratch.len(),
    };
    let here = admit(d, noted, lent)?;
    read_all(d, image)?;
    scratch.fill(0);
    Ok(here)
}

// The locks of all blocks, a byte to each.
fn read_locks<D: Driver>(d: &mut D, locks: &mut [u8]) -> Result<(), CallFault>
    requires { length locks.old ≡ (D.Driver.tag d.old).count }
    ensures cases { MatchResult result (λ _. map nonzero locks.new ≡ (D.Driver.tag d.old).locks) (λ _. ⊥) }
    ensures same { D.Driver.tag d.new ≡ D.Driver.tag d.old }
{
    for (k, lock) in locks.iter_mut().enumerate() {
        *lock = u8::from(d.locked(k)?);
    }
    Ok(())
}

/// How every call begins that checks what the tag holds: its shape and the lent memory; its system byte, or where a
/// state noted them shape and system byte; then the image read, the scratch zeroed and the table filled, and what was
/// read checked against the locks.
// Stays: one value of image, table and scratch was tried, lent and given; what it lends on is not known to the proof behind.
pub fn begin<D: Driver>(
    d: &mut D,
    noted: Option<Noted>,
    image: &mut [u8],
    table: &mut [SetRecord],
    scratch: &mut [u8],
) -> Result<Begun, CallFault>
    ensures answer { Answers (begin_rows (D.Driver.tag d.old) noted (rooms (length image.old) (length table.old) (length scratch.old))) (Begins (D.Driver.tag d.old)) result }
    ensures after { work image.new table.new scratch.new ≡ worked (D.Driver.tag d.old) noted (D.Driver.tag d.old) (work image.old table.old scratch.old) }
    ensures same { D.Driver.tag d.new ≡ D.Driver.tag d.old }
{
    let here = prepare(d, noted, image, table.len(), scratch)?;
    let Shape { count, size } = here.shape;
    let mut locks = [0; 256];
    read_locks(d, &mut locks[..count])?;
    let memory = Memory {
        image: &image[..count * size],
        locks: &locks[..count],
        size,
    };
    let tally = memory.check(table)?;
    Ok(Begun {
        noted: here,
        locks,
        tally,
    })
}
