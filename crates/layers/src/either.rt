// A driver that is one of two, since no type can be chosen while a program runs.
ghost use Rattle.std.specs.Prelude.{◌≡◌};
ghost use Rattle.layers.specs.Shows.{either_tag};
ghost use Rattle.layers.specs.declared.either.Either.TheVariants.{Left, Right};
ghost use Rattle.tags.specs.Tags.{Shaped};

use drivers::{Driver, DriverFault};
use tags::Shape;

#[derive(Drop)]
pub enum Either<A, B> {
    Left(A),
    Right(B),
}

// Stays: one match for all seven would be a macro or hand out a `dyn Driver`, and neither is used here.
impl<A: Driver, B: Driver> Driver for Either<A, B> {
    ghost tag = { either_tag A.Driver.tag B.Driver.tag };

    ghost shaped = { λ s. elim s as (λ v. Shaped (either_tag A.Driver.tag B.Driver.tag v)) [ Left a ↦ A.Driver.shaped a | Right b ↦ B.Driver.shaped b ] };

    fn shape(&self) -> Shape {
        match self {
            Either::Left(d) => d.shape(),
            Either::Right(d) => d.shape(),
        }
    }

    fn system(&mut self) -> Result<u8, DriverFault> {
        match self {
            Either::Left(d) => d.system(),
            Either::Right(d) => d.system(),
        }
    }

    fn locked(&mut self, k: usize) -> Result<bool, DriverFault> {
        match self {
            Either::Left(d) => d.locked(k),
            Either::Right(d) => d.locked(k),
        }
    }

    fn read(&mut self, k: usize, out: &mut [u8]) -> Result<(), DriverFault> {
        match self {
            Either::Left(d) => d.read(k, out),
            Either::Right(d) => d.read(k, out),
        }
    }

    fn write(&mut self, k: usize, from: &[u8]) -> Result<(), DriverFault> {
        match self {
            Either::Left(d) => d.write(k, from),
            Either::Right(d) => d.write(k, from),
        }
    }

    fn lock(&mut self, k: usize) -> Result<(), DriverFault> {
        match self {
            Either::Left(d) => d.lock(k),
            Either::Right(d) => d.lock(k),
        }
    }

    fn set_system(&mut self, b: u8) -> Result<(), DriverFault> {
        match self {
            Either::Left(d) => d.set_system(b),
            Either::Right(d) => d.set_system(b),
        }
    }
}
