// A driver that is lent: a layer can stand on it, and its owner has it back.
ghost use Rattle.std.specs.Prelude.{◌≡◌};

use super::{Driver, DriverFault};
use tags::Shape;

impl<D: Driver> Driver for &mut D {
    ghost tag = { λ s. D.Driver.tag s.now };

    ghost shaped = { λ s. D.Driver.shaped s.now };

    fn shape(&self) -> Shape {
        (**self).shape()
    }

    fn system(&mut self) -> Result<u8, DriverFault> {
        (**self).system()
    }

    fn locked(&mut self, k: usize) -> Result<bool, DriverFault> {
        (**self).locked(k)
    }

    fn read(&mut self, k: usize, out: &mut [u8]) -> Result<(), DriverFault> {
        (**self).read(k, out)
    }

    fn write(&mut self, k: usize, from: &[u8]) -> Result<(), DriverFault> {
        (**self).write(k, from)
    }

    fn lock(&mut self, k: usize) -> Result<(), DriverFault> {
        (**self).lock(k)
    }

    fn set_system(&mut self, b: u8) -> Result<(), DriverFault> {
        (**self).set_system(b)
    }
}
