// The faults of a dump, the layers that tell faults, and what every fault tells.
ghost use Rattle.std.specs.Prelude.{◌≡◌, Some};
ghost use Rattle.tags.specs.Faults.{Told, layer_name, dump_number, dump_place, dump_layer};

use std::fmt;

/// Which part of the processor tells a fault.
#[derive(Clone, Copy, Debug, PartialEq, Eq)]
pub enum Layer {
    Dump,
    Call,
    Scan,
    Code,
    Driver,
}

impl Layer {
    pub fn name(self) -> &'static str
        ensures value { result.now ≡ layer_name self }
    {
        match self {
            Layer::Dump => "dump",
            Layer::Call => "call",
            Layer::Scan => "scan",
            Layer::Code => "code",
            Layer::Driver => "driver",
        }
    }
}

impl fmt::Display for Layer {
    ghost output = { λ l. Some (layer_name l) };

    fn fmt<W: fmt::Write>(&self, f: &mut fmt::Formatter<W>) -> fmt::Result {
        f.write_str(self.name())
    }
}

/// What a fault tells, whatever layer it comes from.
// Stays: a fault that holds another hands on four calls; told as one record, each number would be worked out with all.
pub trait Refusal {
    /// Its number, its place, its group and its layer.
    ghost told: { Self → Told };

    fn number(&self) -> u8
        ensures value { result ≡ (told self.now).number };

    fn place(&self) -> usize
        ensures value { result ≡ (told self.now).place };

    /// The group of packed bits that a code is at fault for, 0 where none.
    fn group(&self) -> usize
        ensures value { result ≡ (told self.now).group };

    fn layer(&self) -> Layer
        ensures value { result ≡ (told self.now).layer };
}

/// Why no tag is made of a dump or of lent memory.
#[derive(Clone, Copy, Debug, PartialEq, Eq)]
pub enum DumpFault {
    /// Below three bytes.
    Short,
    /// A shape outside the limits.
    Shape,
    /// Not of the shape's exact size.
    Size,
}

impl Refusal for DumpFault {
    ghost told = { λ f. record { number = dump_number f; place = dump_place f; group = 0; layer = dump_layer f } };

    fn number(&self) -> u8 {
        match self {
            DumpFault::Short => 1,
            DumpFault::Shape => 2,
            DumpFault::Size => 3,
        }
    }

    fn place(&self) -> usize {
        match self {
            DumpFault::Short | DumpFault::Shape | DumpFault::Size => 0,
        }
    }

    fn group(&self) -> usize {
        0
    }

    fn layer(&self) -> Layer {
        match self {
            DumpFault::Short | DumpFault::Size => Layer::Dump,
            DumpFault::Shape => Layer::Call,
        }
    }
}
