// A set in its smallest form, or with offset and pad.
ghost use Rattle.std.specs.Prelude.{◌≡◌, ◌*◌, ◌≤◌, length};
ghost use Rattle.codes.specs.Table.{first_code, packed_code};
ghost use Rattle.codes.specs.Numbers.{kind_number, code_number};
ghost use Rattle.sets.specs.Sets.{size, offset_size, name_size, long};
ghost use Rattle.sets.specs.Writing.{shortest, nibble, offset_bytes, first_byte, encode};
ghost use Rattle.scan.specs.Views.{name_of};
ghost use Rattle.writing.specs.Forms.{wanted, Fit, formed, Planned};
ghost use Rattle.writing.specs.Puts.{Puts};
ghost use Rattle.writing.specs.Pens.{HasRoom, Wrote};

use super::items::Item;
use super::pens::Pen;
use packing::Packed;
use scan::Identifier;

// An item as its set is written: so many bytes of offset and pad, its identifier spelled, its object's code chosen.
#[derive(Clone, Copy)]
pub(crate) struct Form<'a> {
    pub(crate) item: Item<'a>,
    pub(crate) extra: usize,
    pub(crate) name: Identifier<'a>,
    pub(crate) packed: Packed,
    ghost fit: { Fit (wanted item) },
    ghost few: { extra ≤ 256 },
    ghost spelled: { name_of name ≡ shortest item.identifier.now },
    ghost planned: { Planned (wanted item) packed },
}

fn length_size(n: usize) -> usize
    ensures value { result ≡ long n }
    ensures bound { result ≤ 2 }
{
    if n < 0x80 { 1 } else { 2 }
}

// Bit 8 of the precursor, which announces an offset byte.
fn offset_bit(extra: usize) -> u8
    ensures { result ≡ 0x80 * offset_size extra }
{
    if extra == 0 { 0 } else { 0x80 }
}

impl Form<'_> {
    fn nibble(self) -> u8
        ensures value { result ≡ nibble (name_of self.entry.name) }
        ensures bound { result ≤ 15 }
    {
        match self.name {
            Identifier::Bare(n) => n,
            Identifier::Byte(_) | Identifier::Led(_) => 15,
        }
    }

    // The bytes of its identifier.
    fn name_size(self) -> usize
        ensures value { result ≡ name_size (name_of self.entry.name) }
        ensures bound { result ≤ 33 }
    {
        match self.name {
            Identifier::Bare(_) => 0,
            Identifier::Byte(_) => 1,
            Identifier::Led(content) => content.len() + 1,
        }
    }

    // Its offset byte, if it has one.
    fn put_offset(self, pen: &mut Pen)
        requires { HasRoom pen.old (offset_size self.extra) }
        ensures { Wrote (offset_bytes self.entry.extra) pen.old pen.new }
    {
        if self.extra > 0 {
            pen.byte((self.extra - 1) as u8);
        }
    }

    pub(crate) fn size(self) -> usize
        ensures { result ≡ size (formed self.entry.extra (wanted self.entry.item)) }
    {
        let n = self.packed.length;
        1 + self.extra + self.name_size() + length_size(n) + n
    }

    // Its precursor.
    fn first(self) -> u8
        ensures { result ≡ first_byte (formed self.entry.extra (wanted self.entry.item)) }
    {
        offset_bit(self.extra) + 16 * u8::from(self.packed.code) + self.nibble()
    }

    // The set, part by part.
    fn put(self, pen: &mut Pen)
        requires { HasRoom pen.old (size (formed self.extra (wanted self.item))) }
        ensures { Wrote (encode (formed self.entry.extra (wanted self.entry.item))) pen.old pen.new }
    {
        pen.byte(self.first());
        self.put_offset(pen);
        pen.name(self.name);
        pen.length(self.packed.length);
        pen.object(self.item.kind, self.item.object, self.packed.length);
        pen.zeros(self.extra.saturating_sub(1));
    }

    // The set at the front of `out`, and how many bytes it has.
    pub(crate) fn write(self, out: &mut [u8]) -> usize
        requires { size (formed self.extra (wanted self.item)) ≤ length out.old }
        ensures { Puts 0 (encode (formed self.entry.extra (wanted self.entry.item))) out.old out.new result }
    {
        let mut pen = Pen { out, at: 0 };
        self.put(&mut pen);
        pen.at
    }
}
