// A pile of layers, brought to one window, one byte order and one bit order.
ghost use Rattle.std.specs.Prelude.{◌≡◌, ◌≤◌};
ghost use Rattle.tags.specs.Tags.{Tag, Shaped};
ghost use Rattle.drivers.specs.Layers.{window_tag};
ghost use Rattle.layers.specs.Piles.{layer_tag, pile_tag, brought_tag};

/// A layer that is laid on a pile.
#[derive(Clone, Copy, Debug, PartialEq, Eq)]
pub enum Added {
    /// At most `most` blocks, from block `from` on.
    Window { from: usize, most: usize },
    /// The bytes of each block from last to first.
    Bytes,
    /// The bits of each byte from last to first.
    Bits,
}

/// At most `most` blocks from block `from` on, then the byte order where `bytes`, then the bit order where `bits`.
#[derive(Clone, Copy, Debug, PartialEq, Eq)]
pub struct Pile {
    pub from: usize,
    pub most: usize,
    pub bytes: bool,
    pub bits: bool,
}

/// The pile that shows the same as all of `layers`, the first of them lowest.
pub fn brought(layers: &[Added]) -> Pile
    ensures value { (t : Tag) → Shaped t → brought_tag result t ≡ pile_tag layers.now t }
{
    Pile::none().with_all(layers)
}

impl Pile {
    /// The pile that shows the tag itself.
    pub fn none() -> Pile
        ensures same { (t : Tag) → Shaped t → brought_tag result t ≡ t }
    {
        Pile::window(0, usize::MAX)
    }

    /// The pile that shows the same as this one with `added` laid on it. An order laid twice is none, and where it lies
    /// among the other layers is all one.
    pub fn with(self, added: Added) -> Pile
        ensures value { (t : Tag) → Shaped t → brought_tag result t ≡ layer_tag added (brought_tag self t) }
    {
        match added {
            Added::Window { from, most } => self.with_window(from, most),
            Added::Bytes => Pile {
                bytes: !self.bytes,
                ..self
            },
            Added::Bits => Pile {
                bits: !self.bits,
                ..self
            },
        }
    }

    // A window alone, and of all blocks where it has room for the 256 that a tag has at most.
    #[tactic(auto, using(drivers::proofs::Windowing::window_all))]
    fn window(from: usize, most: usize) -> Pile
        ensures same { from ≡ 0 → 256 ≤ most → (t : Tag) → Shaped t → brought_tag result t ≡ t }
    {
        Pile {
            from,
            most,
            bytes: false,
            bits: false,
        }
    }

    // No tag has a block at the largest number, so a start beyond it may stay there.
    fn with_window(self, from: usize, most: usize) -> Pile
        ensures value { (t : Tag) → Shaped t → brought_tag result t ≡ window_tag from most (brought_tag self t) }
    {
        Pile {
            from: self.from.saturating_add(from),
            most: most.min(self.most.saturating_sub(from)),
            ..self
        }
    }

    fn with_all(self, layers: &[Added]) -> Pile
        ensures value { (t : Tag) → Shaped t → brought_tag result t ≡ pile_tag layers.now (brought_tag self t) }
    {
        let mut pile = self;
        for added in layers {
            pile = pile.with(*added);
        }
        pile
    }
}
