// The bench tag: a driver on lent memory and lent lock flags.
#![tactic(auto)]

ghost use Rattle.std.specs.Prelude.{◌≡◌, ◌<◌, length, Some, None, MatchResult};
ghost use Rattle.tags.specs.Tags.{laid};
ghost use Rattle.drivers.proofs.Laid.{fit_shaped};
ghost use Rattle.drivers.specs.Questions.{block};
ghost use Rattle.bench.specs.Means.{bench_fault, bench_tag};

use drivers::{Driver, DriverFault, check_block, check_buffer};
use tags::{DumpFault, Shape};

mod parts;

pub use parts::Bench;

impl<'a> Bench<'a> {
    /// The tag that lies in `memory`. Declined are a shape that no driver has, and memory or flags of another size.
    pub fn new(
        shape: Shape,
        system: u8,
        memory: &'a mut [u8],
        locks: &'a mut [bool],
    ) -> Result<Bench<'a>, DumpFault>
        ensures cases { MatchResult result (λ b. (bench_fault shape.count shape.size (length memory.old) (length locks.old) ≡ None) × (bench_tag b ≡ laid shape.count shape.size system memory.old locks.old)) (λ e. bench_fault shape.count shape.size (length memory.old) (length locks.old) ≡ Some e) }
    {
        if shape.count > Shape::MOST || shape.size > Shape::MOST {
            return Err(DumpFault::Shape);
        }
        if !shape.fits(memory.len(), locks.len()) {
            return Err(DumpFault::Size);
        }
        Ok(Bench {
            shape,
            system,
            memory,
            locks,
        })
    }
}

impl Bench<'_> {
    // The bytes of block `k`.
    fn block(&self, k: usize) -> &[u8]
        requires { k < self.now.shape.count }
        ensures value { result.now ≡ block (bench_tag self.now) k }
        ensures shape { length result.now ≡ self.now.shape.size }
    {
        let at = k * self.shape.size;
        let memory = &*self.memory;
        &memory[at..at + self.shape.size]
    }
}

impl Driver for Bench<'_> {
    ghost tag = { bench_tag };

    ghost shaped = { λ s. fit_shaped s.shape.count s.shape.size s.system s.memory.now s.locks.now s.whole };

    fn shape(&self) -> Shape {
        self.shape
    }

    fn system(&mut self) -> Result<u8, DriverFault> {
        Ok(self.system)
    }

    fn locked(&mut self, k: usize) -> Result<bool, DriverFault> {
        check_block(self.shape, k)?;
        Ok(self.locks[k])
    }

    fn read(&mut self, k: usize, out: &mut [u8]) -> Result<(), DriverFault> {
        check_buffer(self.shape, k, out.len())?;
        out.copy_from_slice(self.block(k));
        Ok(())
    }

    fn write(&mut self, k: usize, from: &[u8]) -> Result<(), DriverFault> {
        check_buffer(self.shape, k, from.len())?;
        if self.locks[k] {
            return Err(DriverFault::Locked(k));
        }
        let at = k * self.shape.size;
        let end = at + self.shape.size;
        self.memory[at..end].copy_from_slice(from);
        Ok(())
    }

    fn lock(&mut self, k: usize) -> Result<(), DriverFault> {
        check_block(self.shape, k)?;
        self.locks[k] = true;
        Ok(())
    }

    fn set_system(&mut self, b: u8) -> Result<(), DriverFault> {
        self.system = b;
        Ok(())
    }
}
