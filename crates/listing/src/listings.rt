// The whole listing of a dump.
ghost use Rattle.std.specs.Prelude.{◌≡◌, IfOk, string_bytes};
ghost use Rattle.listing.specs.Listings.{Listed};
ghost use Rattle.listing.specs.Verdicts.{verdict};

use super::lines::{SetLine, TagLine, UsedLine};
use super::verdicts::pass;
use reading::Memory;
use scan::SetRecord;
use std::alloc::{AllocError, Global};

// The most sets of a memory of 1,024 bytes, and the most bytes that one of its objects has unpacked.
const SETS: usize = 341;

const OBJECT: usize = 2048;

// The line of the set at an address.
fn set_line(heap: Global, memory: Memory, at: usize) -> Result<String, AllocError> {
    let mut scratch = [0u8; OBJECT];
    let Some(entry) = memory.entry_at(at, &mut scratch) else {
        return Ok(String::new(heap));
    };
    let line = SetLine(entry);
    format!(in heap; "{line}\n")
}

// The line of each set, in order.
fn set_lines(heap: Global, memory: Memory, sets: &[SetRecord]) -> Result<String, AllocError> {
    let mut text = String::new(heap);
    for set in sets {
        let line = set_line(heap, memory, set.at)?;
        text.push_str(line.as_str())?;
    }
    Ok(text)
}

/// What is printed of a dump: a line for the tag, one for each set and one for the bytes used; or the line of its refusal.
pub fn listing(heap: Global, bytes: &[u8]) -> Result<String, AllocError>
    ensures made { IfOk result (λ t. Listed bytes.now (verdict 341 bytes.now) (string_bytes t)) }
{
    let mut table = [SetRecord::EMPTY; SETS];
    let passed = match pass(bytes, &mut table) {
        Ok(passed) => passed,
        Err(refused) => return format!(in heap; "{refused}\n"),
    };
    let dump = passed.dump;
    let shape = dump.shape();
    let tag = TagLine {
        blocks: shape.count,
        size: shape.size,
        format: dump.system(),
    };
    let total = dump.content().len();
    let used = UsedLine {
        used: total.saturating_sub(passed.tally.free),
        total,
    };
    let count = passed.tally.sets.min(SETS);
    let sets = set_lines(heap, Memory::from(dump), &table[..count])?;
    format!(in heap; "{tag}\n{sets}{used}\n")
}
