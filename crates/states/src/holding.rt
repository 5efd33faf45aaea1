// Open states and pledges: who holds one may go on, and neither is copied or lost.
ghost use Rattle.std.specs.Prelude.{◌≡◌, true};
ghost use Rattle.states.specs.Holding.{opened, noted_by, pledged};

use super::faults::CallFault;
use tags::Shape;

/// What an open state noted of its tag.
#[derive(Clone, Copy, Debug, PartialEq, Eq)]
pub struct Noted {
    pub shape: Shape,
    pub system: u8,
}

/// Leave to put, change and drop. It is neither copied nor let go: `ready` takes it, and `end` ends it.
// Stays: the project wants an open state to be a plain record of the numbers of a shape, which moves and is not copied.
pub struct OpenState {
    count: usize,
    size: usize,
    system: u8,
}

/// Blocks that a set was readied on, and what the open state that went in noted. Only sealing and waiving spend a pledge,
/// and one that is let go unspent is refused by the proof.
pub struct Pledge {
    noted: Noted,
    first: usize,
    blocks: usize,
    spent: bool,
}

impl Drop for Pledge {
    fn drop(self)
        requires { self.spent ≡ true }
    {
        let Pledge {
            noted: _,
            first: _,
            blocks: _,
            spent: _,
        } = self;
    }
}

/// A declined call that had taken what its caller held: that, as it was, and why.
pub struct Back<H> {
    pub held: H,
    pub fault: CallFault,
}

impl OpenState {
    /// The open state that notes this. Only a granted call has reason to make one.
    pub fn of(noted: Noted) -> OpenState
        ensures value { result ≡ opened noted }
    {
        OpenState {
            count: noted.shape.count,
            size: noted.shape.size,
            system: noted.system,
        }
    }

    pub fn noted(&self) -> Noted
        ensures value { result ≡ noted_by self.now }
    {
        Noted {
            shape: Shape {
                count: self.count,
                size: self.size,
            },
            system: self.system,
        }
    }

    /// Nothing more will be asked of the tag; what was noted is left.
    pub fn end(self) -> Noted
        ensures value { result ≡ noted_by self }
    {
        let OpenState {
            count,
            size,
            system,
        } = self;
        Noted {
            shape: Shape { count, size },
            system,
        }
    }
}

impl Pledge {
    /// The pledge of `blocks` blocks from `first` on, for this state. Only a granted `ready` has reason to make one.
    pub fn of(state: OpenState, first: usize, blocks: usize) -> Pledge
        ensures value { result ≡ pledged state first blocks }
    {
        Pledge {
            noted: state.end(),
            first,
            blocks,
            spent: false,
        }
    }

    /// What its open state noted.
    pub fn noted(&self) -> Noted
        ensures value { result ≡ self.now.noted }
    {
        self.noted
    }

    /// The first pledged block.
    pub fn first(&self) -> usize
        ensures value { result ≡ self.now.first }
    {
        self.first
    }

    /// How many blocks are pledged.
    pub fn blocks(&self) -> usize
        ensures value { result ≡ self.now.blocks }
    {
        self.blocks
    }

    /// Gives the open state back. It is never declined.
    pub fn waive(mut self) -> OpenState
        ensures value { result ≡ opened self.noted }
    {
        self.spent = true;
        OpenState::of(self.noted)
    }
}
