// Whether a dump has a listing.
ghost use Rattle.std.specs.Prelude.{◌≡◌, length, IfOk};
ghost use Rattle.tags.specs.Dumps.{Read};
ghost use Rattle.listing.specs.Verdicts.{told, passed, verdict};

use super::refusals::Refused;
use reading::Memory;
use scan::{SetRecord, Tally};
use tags::{Dump, known_format};

/// A dump that has a listing, and how many sets and free bytes it has.
#[derive(Clone, Copy)]
pub struct Passed<'a> {
    pub dump: Dump<'a>,
    pub tally: Tally,
}

/// The checks of a dump in their order: its size and shape, its system byte, its sets, its locks, its identifiers.
pub fn pass<'a>(bytes: &'a [u8], table: &mut [SetRecord]) -> Result<Passed<'a>, Refused>
    ensures value { passed result ≡ verdict (length table.old) bytes.now }
    ensures read { IfOk result (λ p. Read bytes.entry.now p.dump) }
{
    let dump = Dump::read(bytes)?;
    if !known_format(dump.system()) {
        return Err(Refused::System(dump.system()));
    }
    let tally = Memory::from(dump).check(table)?;
    Ok(Passed { dump, tally })
}

/// The same checks, for whoever asks only how many sets and free bytes there are; nothing stays lent.
pub fn examine(bytes: &[u8], table: &mut [SetRecord]) -> Result<Tally, Refused>
    ensures value { told result ≡ verdict (length table.old) bytes.now }
{
    pass(bytes, table).map(|passed| passed.tally)
}
