// Whether a tag of a shape has a block, and whether a buffer is of its size.
ghost use Rattle.std.specs.Prelude.{◌≡◌, ◌<◌, IfOk};
ghost use Rattle.drivers.specs.Questions.{block_answer, buffer_answer};

use super::DriverFault;
use tags::Shape;

/// Refuses a block that a tag of this shape has not.
pub fn check_block(shape: Shape, k: usize) -> Result<(), DriverFault>
    ensures value { result ≡ block_answer shape.count k }
    ensures cases { IfOk result (λ _. k < shape.count) }
{
    if k >= shape.count {
        return Err(DriverFault::NoBlock(k));
    }
    Ok(())
}

/// Refuses such a block, and then a buffer of another size than a block's.
pub fn check_buffer(shape: Shape, k: usize, length: usize) -> Result<(), DriverFault>
    ensures value { result ≡ buffer_answer shape.count shape.size k length }
    ensures cases { IfOk result (λ _. (k < shape.count) × (length ≡ shape.size)) }
{
    check_block(shape, k)?;
    if length != shape.size {
        return Err(DriverFault::WrongBuffer(k));
    }
    Ok(())
}
