// Items that were measured: sets can hold them, and it is known how many bytes they take.
ghost use Rattle.std.specs.Prelude.{◌≡◌, ◌+◌, ◌-◌, ◌^◌, ◌<◌, ◌≤◌, map, length, take, drop, replicate, MatchResult};
ghost use Rattle.std.specs.List.{AllByRecursion};
ghost use Rattle.std.proofs.Props.{props};
ghost use Rattle.sets.specs.Sets.{size};
ghost use Rattle.sets.specs.Layouts.{laid};
ghost use Rattle.sets.specs.Writing.{encode};
ghost use Rattle.writing.specs.Forms.{wanted, Fit, formed};
ghost use Rattle.writing.specs.Puts.{Puts};
ghost use Rattle.layout.specs.Plans.{least, total, run, taken};
ghost use Rattle.layout.specs.Lays.{laid_gap};

use super::items::{Behind, LayoutFault};
use writing::Item;

// Items in their order, and the sum of their smallest forms.
#[derive(Clone, Copy)]
pub(crate) struct Measured<'a> {
    pub(crate) items: &'a [Item<'a>],
    pub(crate) sum: usize,
    ghost fit: { AllByRecursion Fit (map wanted items.now) } by { Prim.hlevel props },
    ghost summed: { sum ≡ total (map wanted items.now) },
    ghost small: { sum < 2 ^ 63 },
}

// The bytes of the smallest form of the i-th item.
fn size_at(i: usize, item: Item) -> Result<usize, LayoutFault>
    ensures { MatchResult result (λ n. Fit (wanted item.entry) × (n ≡ least (wanted item.entry))) (λ f. (f ≡ LayoutFault.Unfit i) × ¬ Fit (wanted item.entry)) }
{
    item.size().map_err(|_| LayoutFault::Unfit(i))
}

// The form of an item at an address of the gap, and where it ends.
fn write_at(gap: &mut [u8], at: usize, extra: usize, item: Item) -> usize
    requires fit { Fit (wanted item) }
    requires few { extra ≤ 256 }
    requires room { at + size (formed extra (wanted item)) ≤ length gap.old }
    ensures { Puts at (encode (formed extra (wanted item.entry))) gap.old gap.new result }
{
    at + item.write(extra, &mut gap[at..]).unwrap()
}

// Every byte from an address on.
fn fill_from(gap: &mut [u8], at: usize, byte: u8)
    requires { at ≤ length gap.old }
    ensures { Puts at (replicate (length gap.old - at) byte) gap.old gap.new (length gap.old) }
{
    gap[at..].fill(byte);
}

impl<'a> Measured<'a> {
    ghost use Rattle.layout.specs.Measures.{Measures};

    // The items, if their smallest forms take no more than `room`.
    pub(crate) fn of(items: &'a [Item<'a>], room: usize) -> Result<Measured<'a>, LayoutFault>
        requires { room < 2 ^ 63 }
        ensures { Measures items.now room result }
    {
        let mut sum = 0;
        for (i, item) in items.iter().enumerate() {
            sum += size_at(i, *item)?;
            if sum > room {
                return Err(LayoutFault::TooSmall);
            }
        }
        Ok(Measured { items, sum })
    }

    // Those from one index up to another.
    pub(crate) fn part(self, from: usize, to: usize) -> Measured<'a>
        requires { (from ≤ to) × (to ≤ length self.items.now) }
        ensures { map wanted result.items.now ≡ take (to - from) (drop from (map wanted self.entry.items.now)) }
    {
        Measured::of(&self.items[from..to], self.sum).unwrap()
    }

    // The items from the gap's start, the last with `extra` bytes of offset and pad, and where they end.
    fn write(self, gap: &mut [u8], extra: usize) -> usize
        requires few { extra ≤ 256 }
        requires room { length (laid (run (map wanted self.items.now) extra)) ≤ length gap.old }
        ensures { Puts 0 (laid (run (map wanted self.entry.items.now) extra)) gap.old gap.new result }
    {
        let Some((last, front)) = self.items.split_last() else {
            return 0;
        };
        let mut at = 0;
        for item in front {
            at = write_at(gap, at, 0, *item);
        }
        write_at(gap, at, extra, *last)
    }

    // What the last of the items takes of the bytes left over before a locked block.
    fn take_over(self, left: usize) -> usize
        ensures { result ≡ taken (map wanted self.entry.items.now) left }
    {
        if self.items.is_empty() {
            0
        } else {
            left.min(256)
        }
    }

    // A gap with room for the items, and just them.
    pub(crate) fn lay(self, gap: &mut [u8], behind: Behind)
        requires { self.sum ≤ length gap.old }
        ensures { gap.new ≡ laid_gap behind (map wanted self.entry.items.now) (length gap.old) }
    {
        match behind {
            Behind::Locked => {
                let at = self.write(gap, self.take_over(gap.len() - self.sum));
                fill_from(gap, at, 0x80);
            }
            Behind::End => {
                let at = self.write(gap, 0);
                fill_from(gap, at, 0x00);
            }
        }
    }
}
