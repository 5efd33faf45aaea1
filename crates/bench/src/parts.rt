// What a bench tag is made of.
ghost use Rattle.std.specs.Prelude.{◌≡◌, true, length};
ghost use Rattle.tags.specs.Tags.{fits};

use tags::Shape;

/// A tag whose blocks lie one after another in lent memory, with a lent flag to each block that is locked.
#[derive(Drop)]
pub struct Bench<'a> {
    pub(super) shape: Shape,
    pub(super) system: u8,
    pub(super) memory: &'a mut [u8],
    pub(super) locks: &'a mut [bool],
    ghost whole: { fits shape.count shape.size (length memory.now) (length locks.now) ≡ true },
}
