// A gap is measured first, and then written from its start.
ghost use Rattle.std.specs.Prelude.{map};
ghost use Rattle.writing.specs.Forms.{wanted};
ghost use Rattle.layout.specs.Lays.{Lays};
ghost use Rattle.layout.specs.Anew.{LaidReads, RivalsNeed};

use super::items::{Behind, LayoutFault};
use super::measured::Measured;
use writing::Item;

/// The gap with just these items, in smallest form from its start. What is left over goes, before a locked block, to
/// the last of them as offset and pad, up to 256 bytes, and then to fillers; at the end of the memory it is zero.
/// A memory with such bytes in a gap reads as the same list with just those entries there. Whatever rival has these
/// entries in that gap has room for their sum, so a gap is too small only where no rival would do.
pub fn lay_out(gap: &mut [u8], items: &[Item], behind: Behind) -> Result<(), LayoutFault>
    ensures value { Lays behind (map wanted items.now) gap.old gap.new result }
    ensures reads { LaidReads }
    ensures rivals { RivalsNeed }
{
    Measured::of(items, gap.len())?.lay(gap, behind);
    Ok(())
}
