// What every driver of a tag is: an interface whose meaning is a tag.
#![tactic(auto)]

ghost use Rattle.std.specs.Prelude.{◌≡◌, length};
ghost use Rattle.tags.specs.Tags.{Tag, Shaped};
ghost use Rattle.drivers.specs.Questions.{system_answer, locked_answer, read_answer, read_buffer};
ghost use Rattle.drivers.specs.Changes.{write_answer, write_tag, lock_answer, lock_tag, set_answer, with_system};

use tags::Shape;

pub mod checks;
pub mod faults;
pub mod lending;
pub mod wholes;

pub use checks::{check_block, check_buffer};
pub use faults::{DriverFault, WholeFault};
pub use wholes::read_all;

/// A tag, block by block. A refusal alters neither the driver nor a buffer.
pub trait Driver {
    /// The tag that the driver means.
    ghost tag: { Self → Tag };

    /// An implementation shows of each of its states that it means a tag of some shape.
    ghost shaped: { (d : Self) → Shaped (tag d) };

    /// The shape, which never alters.
    fn shape(&self) -> Shape
        ensures value { (result.count ≡ (tag self.now).count) × (result.size ≡ (tag self.now).size) };

    fn system(&mut self) -> Result<u8, DriverFault>
        ensures answer { result ≡ system_answer (tag self.old) }
        ensures same { tag self.new ≡ tag self.old };

    /// Whether block `k` is locked.
    fn locked(&mut self, k: usize) -> Result<bool, DriverFault>
        ensures answer { result ≡ locked_answer (tag self.old) k }
        ensures same { tag self.new ≡ tag self.old };

    /// Fills `out` with block `k`.
    fn read(&mut self, k: usize, out: &mut [u8]) -> Result<(), DriverFault>
        ensures answer { result ≡ read_answer (tag self.old) k (length out.old) }
        ensures after { out.new ≡ read_buffer (tag self.old) k out.old }
        ensures same { tag self.new ≡ tag self.old };

    /// Replaces block `k`.
    fn write(&mut self, k: usize, from: &[u8]) -> Result<(), DriverFault>
        ensures answer { result ≡ write_answer (tag self.old) k (length from.now) }
        ensures after { tag self.new ≡ write_tag (tag self.old) k from.now };

    /// Locks block `k`; a locked one stays so.
    fn lock(&mut self, k: usize) -> Result<(), DriverFault>
        ensures answer { result ≡ lock_answer (tag self.old) k }
        ensures after { tag self.new ≡ lock_tag (tag self.old) k };

    fn set_system(&mut self, b: u8) -> Result<(), DriverFault>
        ensures answer { result ≡ set_answer }
        ensures after { tag self.new ≡ with_system (tag self.old) b };
}
