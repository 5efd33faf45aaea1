// The rehearsal tag: a driver that only reads its dump, and keeps what is changed in a table.
#![tactic(auto)]

ghost use Rattle.std.specs.Prelude.{◌≡◌, ◌<◌, length, Some, None, MatchResult};
ghost use Rattle.tags.specs.Dumps.{dump_means};
ghost use Rattle.tags.proofs.Meant.{dump_shaped};
ghost use Rattle.tables.specs.Tables.{lock_under};
ghost use Rattle.tables.proofs.Under.{under-shaped};
ghost use Rattle.drivers.specs.Questions.{block};
ghost use Rattle.rehearsal.specs.Means.{rehearsal_fault, rehearsal_tag};

use drivers::{Driver, DriverFault, check_block, check_buffer};
use tables::Table;
use tags::{Dump, DumpFault, Shape};

mod parts;

pub use parts::Rehearsal;

impl<'a> Rehearsal<'a> {
    /// The tag of `dump`, nothing changed. Declined is a shape that the table has no room for.
    pub fn new(dump: Dump<'a>) -> Result<Rehearsal<'a>, DumpFault>
        ensures cases { MatchResult result (λ s. (rehearsal_fault (dump_means dump.entry) ≡ None) × (rehearsal_tag s ≡ dump_means dump.entry)) (λ e. rehearsal_fault (dump_means dump.entry) ≡ Some e) }
    {
        if !Table::has_room(dump.shape()) {
            return Err(DumpFault::Shape);
        }
        let system = dump.system();
        Ok(Rehearsal {
            dump,
            system,
            table: Table::new(),
        })
    }
}

impl Rehearsal<'_> {
    // Locked in the dump, or since.
    fn is_locked(&self, k: usize) -> bool
        ensures value { result ≡ lock_under (dump_means self.now.dump) self.now.table k }
    {
        self.dump.locked(k) || self.table.locked(k)
    }

    // Block `k`: what was written to it, or the dump's.
    fn block(&self, k: usize) -> &[u8]
        requires { k < (rehearsal_tag self.now).count }
        ensures value { result.now ≡ block (rehearsal_tag self.now) k }
        ensures shape { length result.now ≡ (rehearsal_tag self.now).size }
    {
        let size = self.dump.shape().size;
        if let Some(block) = self.table.fetch(k, size) {
            return block;
        }
        let at = k * size;
        &self.dump.content()[at..at + size]
    }
}

impl Driver for Rehearsal<'_> {
    ghost tag = { rehearsal_tag };

    ghost shaped = { λ s. under-shaped (dump_means s.dump) s.table s.system (dump_shaped s.dump) };

    fn shape(&self) -> Shape {
        self.dump.shape()
    }

    fn system(&mut self) -> Result<u8, DriverFault> {
        Ok(self.system)
    }

    fn locked(&mut self, k: usize) -> Result<bool, DriverFault> {
        check_block(self.dump.shape(), k)?;
        Ok(self.is_locked(k))
    }

    fn read(&mut self, k: usize, out: &mut [u8]) -> Result<(), DriverFault> {
        check_buffer(self.dump.shape(), k, out.len())?;
        out.copy_from_slice(self.block(k));
        Ok(())
    }

    fn write(&mut self, k: usize, from: &[u8]) -> Result<(), DriverFault> {
        check_buffer(self.dump.shape(), k, from.len())?;
        if self.is_locked(k) {
            return Err(DriverFault::Locked(k));
        }
        // There is a row for each block.
        self.table.put(k, from).unwrap();
        Ok(())
    }

    fn lock(&mut self, k: usize) -> Result<(), DriverFault> {
        check_block(self.dump.shape(), k)?;
        self.table.lock(k);
        Ok(())
    }

    fn set_system(&mut self, b: u8) -> Result<(), DriverFault> {
        self.system = b;
        Ok(())
    }
}
