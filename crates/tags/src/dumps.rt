// A dump, read in place.
ghost use Rattle.std.specs.Prelude.{◌≡◌, false, Some, MatchResult, slice_index_or};
ghost use Rattle.tags.specs.Dumps.{dump_fault, dump_means, Read};

use super::faults::DumpFault;
pub use super::parts::Dump;
use super::shapes::Shape;

impl<'a> Dump<'a> {
    /// The dump that `bytes` hold, or the first fault: below 3 bytes, a shape outside the limits, another size.
    pub fn read(bytes: &'a [u8]) -> Result<Dump<'a>, DumpFault>
        ensures cases { MatchResult result (Read bytes.now) (λ e. dump_fault bytes.now ≡ Some e) }
    {
        if bytes.len() < 3 {
            return Err(DumpFault::Short);
        }
        let shape = Shape {
            count: bytes[1] as usize,
            size: bytes[0] as usize,
        };
        if !shape.in_limits() {
            return Err(DumpFault::Shape);
        }
        let content = 3 + shape.count;
        if bytes.len() != content + shape.count * shape.size {
            return Err(DumpFault::Size);
        }
        Ok(Dump {
            shape,
            system: bytes[2],
            locks: &bytes[3..content],
            content: &bytes[content..bytes.len()],
        })
    }

    /// A byte to each block, not zero where it is locked.
    pub fn locks(&self) -> &'a [u8]
        ensures value { result.now ≡ self.now.locks.now }
    {
        self.locks
    }

    /// All blocks, one after another.
    pub fn content(&self) -> &'a [u8]
        ensures value { result.now ≡ self.now.content.now }
    {
        self.content
    }
}

impl Dump<'_> {
    pub fn shape(&self) -> Shape
        ensures value { (result.count ≡ (dump_means self.now).count) × (result.size ≡ (dump_means self.now).size) }
    {
        self.shape
    }

    pub fn system(&self) -> u8
        ensures value { result ≡ (dump_means self.now).system }
    {
        self.system
    }

    /// Whether there is a block `k` and it is locked.
    pub fn locked(&self, k: usize) -> bool
        ensures value { result ≡ slice_index_or (dump_means self.now).locks k false }
    {
        k < self.shape.count && self.locks[k] != 0
    }
}
