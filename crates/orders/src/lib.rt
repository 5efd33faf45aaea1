// The order layers: a driver over any driver, each block turned.
#![tactic(auto)]

ghost use Rattle.std.specs.Prelude.{◌≡◌};
ghost use Rattle.drivers.specs.Layers.{turn_tag, Alike};
ghost use Rattle.orders.specs.Shows.{shown};
ghost use Rattle.drivers.proofs.Turning.{turn_shaped};

use drivers::{Driver, DriverFault};
use tags::Shape;

pub mod turns;

pub use turns::{Bits, Bytes, Turn};

/// A driver that shows each block of the one below it turned.
#[derive(Drop)]
pub struct Turned<T, D> {
    turn: T,
    lower: D,
}

/// The byte-order layer: the bytes of each block from last to first.
pub type ByteOrder<D> = Turned<Bytes, D>;

/// The bit-order layer: the bits of each byte from last to first.
pub type BitOrder<D> = Turned<Bits, D>;

/// The layer that turns each block of `lower`. Turned once more, its tag is the one below.
#[tactic(auto, using(drivers::proofs::Turning::turn_twice))]
pub fn over<T: Turn, D: Driver>(turn: T, lower: D) -> Turned<T, D>
    ensures value { shown T.Turn.turned D.Driver.tag result ≡ turn_tag T.Turn.turned (D.Driver.tag lower) }
    ensures same { turn_tag T.Turn.turned (shown T.Turn.turned D.Driver.tag result) ≡ D.Driver.tag lower }
    ensures shape { Alike (shown T.Turn.turned D.Driver.tag result) (D.Driver.tag lower) }
{
    Turned { turn, lower }
}

/// Two such layers, which show the tag below them.
pub fn twice<T: Turn + Copy, D: Driver>(turn: T, lower: D) -> Turned<T, Turned<T, D>>
    ensures same { shown T.Turn.turned (shown T.Turn.turned D.Driver.tag) result ≡ D.Driver.tag lower }
{
    over(turn, over(turn, lower))
}

impl<T: Turn, D: Driver> Driver for Turned<T, D> {
    ghost tag = { shown T.Turn.turned D.Driver.tag };

    ghost shaped = { λ s. turn_shaped T.Turn.turned T.Turn.long (D.Driver.tag s.lower) (D.Driver.shaped s.lower) };

    fn shape(&self) -> Shape {
        self.lower.shape()
    }

    fn system(&mut self) -> Result<u8, DriverFault> {
        self.lower.system()
    }

    fn locked(&mut self, k: usize) -> Result<bool, DriverFault> {
        self.lower.locked(k)
    }

    #[tactic(auto, using(drivers::proofs::Turning::turn_read))]
    fn read(&mut self, k: usize, out: &mut [u8]) -> Result<(), DriverFault> {
        self.lower.read(k, out)?;
        self.turn.turn(out);
        Ok(())
    }

    #[tactic(auto, using(drivers::proofs::Turning::turn_wrote))]
    fn write(&mut self, k: usize, from: &[u8]) -> Result<(), DriverFault> {
        let mut block = [0u8; Shape::MOST];
        let Some(front) = block.get_mut(..from.len()) else {
            // No block is so long: the driver below refuses it.
            return self.lower.write(k, from);
        };
        front.copy_from_slice(from);
        self.turn.turn(front);
        self.lower.write(k, front)
    }

    fn lock(&mut self, k: usize) -> Result<(), DriverFault> {
        self.lower.lock(k)
    }

    fn set_system(&mut self, b: u8) -> Result<(), DriverFault> {
        self.lower.set_system(b)
    }
}
