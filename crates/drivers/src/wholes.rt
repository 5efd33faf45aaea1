// A whole tag at once.
ghost use Rattle.std.specs.Prelude.{◌≡◌, length};
ghost use Rattle.drivers.specs.Wholes.{whole_answer, whole_image};

use super::{Driver, WholeFault};

/// Reads each block into its place in `image`, and leaves the bytes behind them.
pub fn read_all<D: Driver>(d: &mut D, image: &mut [u8]) -> Result<(), WholeFault>
    ensures answer { result ≡ whole_answer (D.Driver.tag d.old) (length image.old) }
    ensures after { image.new ≡ whole_image (D.Driver.tag d.old) image.old }
    ensures same { D.Driver.tag d.new ≡ D.Driver.tag d.old }
{
    let shape = d.shape();
    let needed = shape.count * shape.size;
    if image.len() < needed {
        return Err(WholeFault::Room(needed));
    }
    // Stays: blocks may have no bytes; `chunks_exact_mut` would want a case for them, and their numbers beside.
    for k in 0..shape.count {
        let at = k * shape.size;
        let end = at + shape.size;
        d.read(k, &mut image[at..end])?;
    }
    Ok(())
}
