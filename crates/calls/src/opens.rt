// Opening a tag.
ghost use Rattle.std.specs.Prelude.{◌≡◌, length, None};
ghost use Rattle.calls.specs.Rows.{Answers, rooms};
ghost use Rattle.calls.specs.Working.{work};
ghost use Rattle.calls.specs.Starts.{begin_rows, worked};
ghost use Rattle.calls.specs.Openings.{Opens};

use super::starts::begin;
use drivers::Driver;
use scan::SetRecord;
use states::{CallFault, OpenState};

/// Scans a tag and gives leave to change it: an open state, and how many bytes are free behind the last set.
pub fn open<D: Driver>(
    d: &mut D,
    image: &mut [u8],
    table: &mut [SetRecord],
    scratch: &mut [u8],
) -> Result<(OpenState, usize), CallFault>
    ensures answer { Answers (begin_rows (D.Driver.tag d.old) None (rooms (length image.old) (length table.old) (length scratch.old))) (Opens (D.Driver.tag d.old)) result }
    ensures after { work image.new table.new scratch.new ≡ worked (D.Driver.tag d.old) None (D.Driver.tag d.old) (work image.old table.old scratch.old) }
    ensures same { D.Driver.tag d.new ≡ D.Driver.tag d.old }
{
    let begun = begin(d, None, image, table, scratch)?;
    Ok((OpenState::of(begun.noted), begun.tally.free))
}
