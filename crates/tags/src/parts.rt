// What a dump is made of.
ghost use Rattle.std.specs.Prelude.{◌≡◌, true, length};
ghost use Rattle.tags.specs.Tags.{fits};

use super::shapes::Shape;

/// The parts of a dump, all lent from its bytes.
#[derive(Clone, Copy)]
pub struct Dump<'a> {
    pub(super) shape: Shape,
    pub(super) system: u8,
    pub(super) locks: &'a [u8],
    pub(super) content: &'a [u8],
    ghost whole: { fits shape.count shape.size (length content.now) (length locks.now) ≡ true },
}
