// How a driver refuses.
ghost use Rattle.std.specs.Prelude.{◌≡◌};
ghost use Rattle.drivers.specs.Faults.{driver_number, driver_place, driver_layer};
ghost use Rattle.drivers.specs.Layers.{refused_at};
ghost use Rattle.drivers.specs.declared.faults.WholeFault.TheVariants.{Driver as OfDriver};

use tags::{Layer, Refusal};

/// A driver's refusal, with the block that it was asked for.
#[derive(Clone, Copy, Debug, PartialEq, Eq)]
pub enum DriverFault {
    /// There is no such block.
    NoBlock(usize),
    /// The buffer is not of a block's size.
    WrongBuffer(usize),
    /// The block to write is locked.
    Locked(usize),
}

impl DriverFault {
    /// The same refusal, told of block `k`.
    pub fn at(self, k: usize) -> DriverFault
        ensures value { result ≡ refused_at k self }
    {
        match self {
            DriverFault::NoBlock(_) => DriverFault::NoBlock(k),
            DriverFault::WrongBuffer(_) => DriverFault::WrongBuffer(k),
            DriverFault::Locked(_) => DriverFault::Locked(k),
        }
    }
}

impl Refusal for DriverFault {
    ghost told = { λ f. record { number = driver_number f; place = driver_place f; group = 0; layer = driver_layer f } };

    fn number(&self) -> u8 {
        match self {
            DriverFault::NoBlock(_) => 28,
            DriverFault::WrongBuffer(_) => 29,
            DriverFault::Locked(_) => 30,
        }
    }

    fn place(&self) -> usize {
        match self {
            DriverFault::NoBlock(k) | DriverFault::WrongBuffer(k) | DriverFault::Locked(k) => *k,
        }
    }

    fn group(&self) -> usize {
        0
    }

    fn layer(&self) -> Layer {
        Layer::Driver
    }
}

/// Why a tag is not read whole.
#[derive(Clone, Copy, Debug, PartialEq, Eq)]
pub enum WholeFault {
    /// The image has not so many bytes.
    Room(usize),
    /// The driver refused.
    Driver(DriverFault),
}

impl From<DriverFault> for WholeFault {
    ghost from_gives = { λ e r. r ≡ OfDriver e };

    fn from(e: DriverFault) -> WholeFault {
        WholeFault::Driver(e)
    }
}
