// Locked blocks and the sets that lie in them.
ghost use Rattle.std.specs.Prelude.{◌≡◌, ◌+◌, ◌^◌, ◌<◌};
ghost use Rattle.sets.specs.Readings.{found, locked_at, stray_block};
ghost use Rattle.scan.specs.Tables.{records};
ghost use Rattle.reading.specs.Checks.{memory_of};
ghost use Rattle.reading.specs.Inner.{locked_run, FirstLocked};

use super::memories::Blocks;
use scan::SetRecord;

impl Blocks<'_, '_> {
    // Whether an address lies in a locked block; a block past the lock bytes is open.
    fn locked_at(self, address: usize) -> bool
        ensures value { result ≡ locked_at (memory_of self.entry.memory) address }
    {
        self.memory
            .locks
            .get(address / self.memory.size)
            .is_some_and(|lock| *lock != 0)
    }

    // Whether each byte of a set lies in a locked block.
    pub(crate) fn is_sealed(self, set: &SetRecord) -> bool
        requires { set.now.at + set.now.size < 2 ^ 64 }
        ensures value { result ≡ locked_run (memory_of self.entry.memory) set.now.at set.now.size }
    {
        (set.at..set.at + set.size).all(|address| self.locked_at(address))
    }

    // The lowest address from `from` to before `to` that lies in a locked block.
    fn first_locked(self, from: usize, to: usize) -> Option<usize>
        ensures cases { FirstLocked (memory_of self.entry.memory) from to result }
    {
        (from..to).find(|address| self.locked_at(*address))
    }

    // The lowest locked block with a byte of no set, or of a set that touches an open block, in one sweep upwards:
    // between two sealed sets every byte is such a byte, if its block is locked.
    pub(crate) fn stray_block(self, sets: &[SetRecord]) -> Option<usize>
        requires { sets.now ≡ records (found self.memory.image.now) }
        ensures value { result ≡ stray_block (memory_of self.entry.memory) (found self.entry.memory.image.now) }
    {
        let mut from = 0;
        for set in sets {
            if self.is_sealed(set) {
                if let Some(at) = self.first_locked(from, set.at) {
                    return Some(at / self.memory.size);
                }
                from = set.at + set.size;
            }
        }
        self.first_locked(from, self.memory.image.len())
            .map(|at| at / self.memory.size)
    }
}
