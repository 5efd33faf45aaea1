// A gap with one set readied: alone on whole blocks.
ghost use Rattle.std.specs.Prelude.{map};
ghost use Rattle.writing.specs.Forms.{wanted};
ghost use Rattle.layout.specs.Lays.{Readies};
ghost use Rattle.layout.specs.Anew.{ReadyReads, ReadyRivals};

use super::items::{Behind, LayoutFault, Readied};
use super::measured::Measured;
use writing::Item;

/// The gap with just these items, the one at `named` readied: it begins at the first block start behind those before
/// it, which take the bytes up to there, and is padded to a block's end. What is left over never goes to it.
/// A memory with such bytes in a gap reads as the same list with just those entries there, the readied set alone on
/// whole blocks; and whatever rival has that set alone on whole blocks needs as many bytes.
pub fn lay_ready(
    gap: &mut [u8],
    block: usize,
    items: &[Item],
    named: usize,
    behind: Behind,
) -> Result<Readied, LayoutFault>
    ensures value { Readies behind block (map wanted items.now) named gap.old gap.new result }
    ensures reads { ReadyReads }
    ensures rivals { ReadyRivals }
{
    if named >= items.len() || block == 0 || block > 256 {
        return Err(LayoutFault::NoPlace);
    }
    let room = gap.len();
    let all = Measured::of(items, room)?;
    let before = all.part(0, named);
    let alone = all.part(named, named + 1);
    let after = all.part(named + 1, items.len());
    let at = before.sum.next_multiple_of(block);
    let bytes = alone.sum.next_multiple_of(block);
    if room < at + bytes + after.sum {
        return Err(LayoutFault::TooSmall);
    }
    let (front, rest) = gap.split_at_mut(at);
    let (middle, back) = rest.split_at_mut(bytes);
    before.lay(front, Behind::Locked);
    alone.lay(middle, Behind::Locked);
    after.lay(back, behind);
    Ok(Readied { at, bytes })
}
