// What a gap has room for, and why no rival of a memory does better: laws about every memory with the same locked blocks.
#![tactic(auto)]

ghost use Rattle.std.specs.Prelude.{◌≡◌, ◌+◌, ◌-◌, ◌*◌, nat_le};
ghost use Rattle.rivals.specs.Rooms.{whole, EntriesFit, FormSays};
ghost use Rattle.rivals.specs.Promises.{OpenInGap, SealsAlike, GapIsPart, GapsAlike, LastIsRest, Room, NoRoom, NoRoomToPut, NoRoomToChange, MostFree, ReadiedNeeds};
ghost use Rattle.rivals.specs.Examples.{SevenTooMany};
ghost use Rattle.rivals.specs.Relaid.{ReadsDistinct, GapLaidAnew, PlaceInGap, PlaceAtEnd, FreeAfter};

/// The bytes of a gap. Every open set lies within one gap; rivals have the same seals, so where their lists are equal each
/// gap has the same entries, all of which sets can hold again; and as many other bytes that suit a gap, put in its place,
/// change its entries and nothing else.
pub fn gap_bytes(blocks: u16, size: u16) -> u64
    ensures value { result ≡ blocks * size }
    ensures within { OpenInGap }
    ensures seals { SealsAlike }
    ensures part { GapIsPart }
    ensures alike { GapsAlike }
    ensures last { LastIsRest }
    ensures distinct { ReadsDistinct }
    ensures held { EntriesFit }
    ensures says { FormSays }
    ensures anew { GapLaidAnew }
    ensures place { PlaceInGap }
    ensures end { PlaceAtEnd }
{
    u64::from(blocks) * u64::from(size)
}

/// Whether a gap has room for smallest forms of `need` bytes. Where it has not, no rival reads as a list that needs them there.
pub fn has_room(blocks: u16, size: u16, need: u64) -> bool
    ensures value { result ≡ nat_le need (blocks * size) }
    ensures room { Room }
    ensures none { NoRoom }
    ensures put { NoRoomToPut }
    ensures change { NoRoomToChange }
    ensures example { SevenTooMany }
{
    need <= gap_bytes(blocks, size)
}

/// The free bytes of a memory of `all` bytes whose last gap starts at `start` with smallest forms of `need` bytes. No rival
/// that reads as the list has more, and smallest forms from the gap's start leave as many.
pub fn most_free(all: u64, start: u64, need: u64) -> u64
    ensures value { result ≡ all - start - need }
    ensures most { MostFree }
    ensures reached { FreeAfter }
{
    all.saturating_sub(start).saturating_sub(need)
}

/// `n` bytes and those up to the next start of a block. A rival with one set alone on whole blocks needs as many for the
/// smallest forms before it, and for itself.
pub fn whole_blocks(size: u16, n: u32) -> u64
    ensures value { result ≡ whole size n }
    ensures needs { ReadiedNeeds }
{
    match size {
        0 => u64::from(n),
        _ => u64::from(n).next_multiple_of(u64::from(size)),
    }
}
