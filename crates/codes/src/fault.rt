// What the packed bytes of a code can be at fault for.
ghost use Rattle.std.specs.Prelude.{◌≡◌};
ghost use Rattle.codes.specs.Numbers.{fault_number, fault_group};

#[derive(Clone, Copy, Debug, PartialEq, Eq)]
pub enum Fault {
    /// an integer of more than eight bytes, or above the largest
    TooLarge,
    /// the lowest group that stands for no character
    NoCharacter(usize),
    /// bits behind the whole groups that are no padding, with the count of those groups
    NoPadding(usize),
}

impl Fault {
    /// The number of the refusal: 13, 14 or 15.
    pub fn number(&self) -> u8
        ensures { result ≡ fault_number self.now }
    {
        match self {
            Fault::TooLarge => 13,
            Fault::NoCharacter(_) => 14,
            Fault::NoPadding(_) => 15,
        }
    }

    /// The group that it tells, 0 where it tells none.
    pub fn group(&self) -> usize
        ensures { result ≡ fault_group self.now }
    {
        match self {
            Fault::TooLarge => 0,
            Fault::NoCharacter(group) => *group,
            Fault::NoPadding(whole) => *whole,
        }
    }
}
