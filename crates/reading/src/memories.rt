// The bytes and locks of a memory.
ghost use Rattle.std.specs.Prelude.{◌≡◌, ◌<◌, MatchOption};
ghost use Rattle.tags.specs.Dumps.{dump_means};

use tags::Dump;

/// The bytes of a memory, in blocks of `size` bytes, of which a lock byte that is not zero says locked.
#[derive(Clone, Copy, Debug)]
pub struct Memory<'i, 'l> {
    pub image: &'i [u8],
    pub locks: &'l [u8],
    pub size: usize,
}

impl<'a> From<Dump<'a>> for Memory<'a, 'a> {
    ghost from_gives = { λ d r. (r.image.now ≡ d.content.now) × (r.locks.now ≡ d.locks.now) × (r.size ≡ (dump_means d).size) };

    fn from(dump: Dump<'a>) -> Memory<'a, 'a> {
        Memory {
            image: dump.content(),
            locks: dump.locks(),
            size: dump.shape().size,
        }
    }
}

// A memory whose blocks have bytes.
#[derive(Clone, Copy)]
pub(crate) struct Blocks<'i, 'l> {
    pub(super) memory: Memory<'i, 'l>,
    ghost some: { 0 < memory.size },
}

impl<'i, 'l> Memory<'i, 'l> {
    // Its blocks, unless they have no bytes.
    pub(crate) fn in_blocks(self) -> Option<Blocks<'i, 'l>>
        ensures cases { MatchOption result (self.entry.size ≡ 0) (λ b. b.memory ≡ self.entry) }
    {
        if self.size == 0 {
            return None;
        }
        Some(Blocks { memory: self })
    }
}
