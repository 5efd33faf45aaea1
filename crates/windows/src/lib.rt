// The window: a driver over any driver that shows some of its blocks.
#![tactic(auto)]

ghost use Rattle.std.specs.Prelude.{◌≡◌, ◌+◌, ◌<◌, ◌≤◌, MatchResult};
ghost use Rattle.drivers.specs.Layers.{window_tag, Narrower};
ghost use Rattle.drivers.specs.declared.faults.DriverFault.TheVariants.{NoBlock};
ghost use Rattle.drivers.proofs.Windowing.{window_shaped};
ghost use Rattle.windows.specs.Shows.{shown};

use drivers::{Driver, DriverFault, check_block};
use tags::Shape;

/// At most `most` blocks of the lower driver, from block `from` on.
#[derive(Drop)]
pub struct Window<D> {
    lower: D,
    from: usize,
    most: usize,
}

impl<D: Driver> Window<D> {
    // Stays: two numbers, which a type for them would only carry to where they are taken apart.
    /// The window that shows `most` blocks of `lower` from block `from` on, or as many as there are.
    #[tactic(auto, using(drivers::proofs::Windowing::window_all))]
    pub fn over(lower: D, from: usize, most: usize) -> Window<D>
        ensures value { shown D.Driver.tag result ≡ window_tag from most (D.Driver.tag lower) }
        ensures same { from ≡ 0 → (D.Driver.tag lower).count ≤ most → shown D.Driver.tag result ≡ D.Driver.tag lower }
        ensures shape { Narrower (shown D.Driver.tag result) (D.Driver.tag lower) }
    {
        Window { lower, from, most }
    }

    /// The window that shows all blocks, and so the tag below.
    pub fn whole(lower: D) -> Window<D>
        ensures same { shown D.Driver.tag result ≡ D.Driver.tag lower }
    {
        let count = lower.shape().count;
        Window::over(lower, 0, count)
    }
}

impl<D: Driver> Window<D> {
    // The lower driver's number of block `k`.
    fn below(&self, k: usize) -> Result<usize, DriverFault>
        ensures cases { MatchResult result (λ b. (k < (shown D.Driver.tag self.now).count) × (b ≡ self.now.from + k)) (λ e. ((shown D.Driver.tag self.now).count ≤ k) × (e ≡ NoBlock k)) }
    {
        check_block(self.shape(), k)?;
        Ok(self.from + k)
    }
}

impl<D: Driver> Driver for Window<D> {
    ghost tag = { shown D.Driver.tag };

    ghost shaped = { λ s. window_shaped s.from s.most (D.Driver.tag s.lower) (D.Driver.shaped s.lower) };

    fn shape(&self) -> Shape {
        let whole = self.lower.shape();
        Shape {
            count: self.most.min(whole.count.saturating_sub(self.from)),
            size: whole.size,
        }
    }

    fn system(&mut self) -> Result<u8, DriverFault> {
        self.lower.system()
    }

    fn locked(&mut self, k: usize) -> Result<bool, DriverFault> {
        let below = self.below(k)?;
        self.lower.locked(below).map_err(|e| e.at(k))
    }

    #[tactic(auto, using(drivers::proofs::Windowing::window_read))]
    fn read(&mut self, k: usize, out: &mut [u8]) -> Result<(), DriverFault> {
        let below = self.below(k)?;
        self.lower.read(below, out).map_err(|e| e.at(k))
    }

    #[tactic(auto, using(drivers::proofs::Windowing::window_write))]
    fn write(&mut self, k: usize, from: &[u8]) -> Result<(), DriverFault> {
        let below = self.below(k)?;
        self.lower.write(below, from).map_err(|e| e.at(k))
    }

    #[tactic(auto, using(drivers::proofs::Windowing::window_lock))]
    fn lock(&mut self, k: usize) -> Result<(), DriverFault> {
        let below = self.below(k)?;
        self.lower.lock(below).map_err(|e| e.at(k))
    }

    fn set_system(&mut self, b: u8) -> Result<(), DriverFault> {
        self.lower.set_system(b)
    }
}
