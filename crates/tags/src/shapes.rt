// The shape of a tag.
ghost use Rattle.std.specs.Prelude.{◌≡◌};
ghost use Rattle.tags.specs.Tags.{in_limits, fits};

/// `count` blocks of `size` bytes each.
#[derive(Clone, Copy, Debug, PartialEq, Eq)]
pub struct Shape {
    pub count: usize,
    pub size: usize,
}

impl Shape {
    /// The most blocks, and the most bytes to a block, that any driver has.
    pub const MOST: usize = 256;

    /// Whether dumps and calls take this shape: `size` 1 to 32, `count` 1 to 255, at most 1,024 bytes in all.
    pub fn in_limits(self) -> bool
        ensures value { result ≡ in_limits self.count self.size }
    {
        (1..=32).contains(&self.size)
            && (1..=255).contains(&self.count)
            && self.count * self.size <= 1024
    }

    /// Whether a driver may have this shape on `memory` bytes and `flags` lock flags, none of them left over.
    pub fn fits(self, memory: usize, flags: usize) -> bool
        ensures value { result ≡ fits self.count self.size memory flags }
    {
        self.count <= Self::MOST
            && self.size <= Self::MOST
            && memory == self.count * self.size
            && flags == self.count
    }
}
