// What a memory of sets means, as definitions, with its laws and worked examples.
#![tactic(auto)]

ghost use Rattle.std.specs.Prelude.{◌≡◌, ◌+◌, length};
ghost use Rattle.sets.specs.Examples.{spellings, steps, SpellingsRight, StepsRight, MemoryRight};

/// How many worked examples the definitions are held to: identifiers and lengths, steps, a whole memory.
pub fn examples_hold() -> usize
    ensures value { result ≡ length spellings + length steps + 1 }
    ensures spelled { SpellingsRight }
    ensures stepped { StepsRight }
    ensures scanned { MemoryRight }
{
    25
}
