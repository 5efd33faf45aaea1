// The driver that shows what a pile of layers shows of the driver below it.
ghost use Rattle.std.specs.Prelude.{◌≡◌, is_some};
ghost use Rattle.layers.specs.Piles.{turn_if, pile_tag, brought_tag};
ghost use Rattle.layers.specs.Shows.{perhaps, shown};

use super::either::Either;
use super::piles::{Added, Pile, brought};
use drivers::Driver;
use orders::{Bits, Bytes, Turn, Turned, over};
use windows::Window;

/// A driver, and perhaps a layer on it that turns each block.
pub type Perhaps<T, D> = Either<D, Turned<T, D>>;

/// A driver with a window on it, perhaps the byte order, and perhaps the bit order.
pub type Piled<D> = Perhaps<Bits, Perhaps<Bytes, Window<D>>>;

/// The driver that shows what all of `layers`, the first of them lowest, show of `lower`.
pub fn lay_on<D: Driver>(lower: D, layers: &[Added]) -> Piled<D>
    ensures value { shown D.Driver.tag result ≡ pile_tag layers.now (D.Driver.tag lower) }
{
    brought(layers).over(lower)
}

impl Pile {
    /// The driver that shows what this pile shows of `lower`.
    pub fn over<D: Driver>(self, lower: D) -> Piled<D>
        ensures value { shown D.Driver.tag result ≡ brought_tag self (D.Driver.tag lower) }
    {
        let window = Window::over(lower, self.from, self.most);
        let bytes = self.bytes.then_some(Bytes);
        let bits = self.bits.then_some(Bits);
        turned(bits, turned(bytes, window))
    }
}

// The layer that turns each block of `lower`, if there is one.
fn turned<T: Turn, D: Driver>(turn: Option<T>, lower: D) -> Perhaps<T, D>
    ensures value { perhaps T.Turn.turned D.Driver.tag result ≡ turn_if (is_some turn) T.Turn.turned (D.Driver.tag lower) }
{
    match turn {
        Some(turn) => Either::Right(over(turn, lower)),
        None => Either::Left(lower),
    }
}
