// The check of a whole memory.
ghost use Rattle.std.specs.Prelude.{◌≡◌, length};
ghost use Rattle.sets.specs.Meanings.{Meant};
ghost use Rattle.sets.specs.Readings.{reads};
ghost use Rattle.scan.specs.Tables.{CodesTold};
ghost use Rattle.reading.specs.Checks.{memory_of, answered, answer, after};

use super::faults::ReadFault;
use super::memories::Memory;
use super::repeats::first_repeat;
use scan::{SetRecord, Tally, scan_image};

impl Memory<'_, '_> {
    /// Scans the image into the table, and checks it against the locks. Answers how many sets there are and how many
    /// bytes are free.
    pub fn check(self, table: &mut [SetRecord]) -> Result<Tally, ReadFault>
        ensures value { answered result ≡ answer (length table.old) (memory_of self.entry) }
        ensures after { table.new ≡ after (memory_of self.entry) table.old }
        ensures codes { CodesTold self.entry.image.now }
        ensures meaning { Meant (memory_of self.entry) (reads (memory_of self.entry)) }
    {
        let Some(blocks) = self.in_blocks() else {
            return Err(ReadFault::Shape);
        };
        let tally = scan_image(self.image, table)?;
        let sets = &table[..tally.sets];
        if let Some(block) = blocks.stray_block(sets) {
            return Err(ReadFault::Stray(block));
        }
        if let Some(at) = first_repeat(self.image, sets) {
            return Err(ReadFault::Repeat(at));
        }
        Ok(tally)
    }
}
