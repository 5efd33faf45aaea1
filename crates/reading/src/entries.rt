// What one set says.
ghost use Rattle.std.specs.Prelude.{length};
ghost use Rattle.reading.specs.Checks.{memory_of};
ghost use Rattle.reading.specs.Entries.{Entered};

use super::memories::Memory;
use codes::Compaction;
use packing::unpack;
use scan::{Identifier, Scanned, SetRecord, step};

/// A set with its object unpacked.
#[derive(Clone, Copy, Debug)]
pub struct Entry<'i, 's> {
    pub place: SetRecord,
    pub sealed: bool,
    pub identifier: Identifier<'i>,
    pub object: &'s [u8],
}

impl<'i> Memory<'i, '_> {
    /// What the set at an address says, its object unpacked to the front of `scratch`. There is none where no set stands
    /// at the address, where the object is longer than the scratch, or where blocks have no bytes.
    pub fn entry_at<'s>(self, at: usize, scratch: &'s mut [u8]) -> Option<Entry<'i, 's>>
        ensures cases { Entered (memory_of self.entry) at (length scratch.old) result }
    {
        let blocks = self.in_blocks()?;
        let Scanned::Set(set) = step(self.image, at).ok()? else {
            return None;
        };
        let code = Compaction::try_from(set.place.code).unwrap();
        let long = unpack(code, set.object, scratch).ok()?;
        Some(Entry {
            place: set.place,
            sealed: blocks.is_sealed(&set.place),
            identifier: set.identifier,
            object: &scratch[..long],
        })
    }
}
