// How an object is packed into bytes: the table of codes, as definitions, with its laws and worked examples.
#![tactic(auto)]

ghost use Rattle.std.specs.Prelude.{◌≡◌, length};
ghost use Rattle.codes.specs.Examples.{examples, ExamplesHold};
ghost use Rattle.codes.specs.Laws.{LettersStand};

mod fault;
mod kind;

pub use fault::Fault;
pub use kind::{Compaction, Kind, UnknownNumber};

/// How many worked examples the definitions are held to; and each group of an alphabet stands for one character.
pub fn examples_hold() -> usize
    ensures value { result ≡ length examples }
    ensures right { ExamplesHold }
    ensures letters { LettersStand }
{
    6
}
