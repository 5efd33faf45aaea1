// Groups of some bits in a row, as they lie in bytes.
ghost use Rattle.std.specs.Prelude.{◌≡◌, ◌+◌, ◌-◌, ◌*◌, ◌/◌, ◌%◌, ◌^◌, ◌<◌, ◌≤◌, length, take, slice_index};
ghost use Rattle.codes.specs.Bits.{bytes_for};
ghost use Rattle.codes.specs.Table.{within, whole, remaining, pad_behind};
ghost use Rattle.codes.proofs.Cuts.{three};

use super::widths::Width;

// Whether every byte of an object lies from `first` to `last`.
pub(crate) fn all_within(first: u8, last: u8, object: &[u8]) -> bool
    ensures { result ≡ within first last object.now }
{
    object.iter().all(|b| first <= *b && *b <= last)
}

// Where a group begins among groups of another width.
#[derive(Clone, Copy)]
pub(crate) struct Place {
    pub(crate) group: usize,
    pub(crate) bit: u32,
}

fn byte_or_zero(bytes: &[u8], i: usize) -> u8
    ensures { result ≡ slice_index bytes.now i }
{
    bytes.get(i).copied().unwrap_or(0)
}

impl Width {
    pub(crate) const BYTE: Width = Width { bits: 8 };

    // Where the i-th group of this width begins among groups of another, by products that stay small.
    pub(crate) fn begins(self, i: usize, among: Width) -> Place
        requires { i * self.bits / among.bits < 2 ^ 64 }
        ensures group { result.group ≡ i * self.bits / among.bits }
        ensures bit { result.bit ≡ i * self.bits % among.bits }
    {
        let (to, from) = (self.bits as usize, among.bits as usize);
        let within = i % from * to;
        Place {
            group: i / from * to + within / from,
            bit: (within % from) as u32,
        }
    }

    // The bits of this width that begin at `bit` in three neighbouring groups of another.
    pub(crate) fn cut(self, from: Width, bit: u32, a: u8, b: u8, c: u8) -> u8
        requires { bit + self.bits ≤ from.bits + from.bits + from.bits }
        ensures { result ≡ three from.bits a b c / 2 ^ (from.bits + from.bits + from.bits - bit - self.bits) % 2 ^ self.bits }
    {
        let high = (u32::from(a) << from.bits) + u32::from(b);
        let all = (high << from.bits) + u32::from(c);
        ((all >> (from.bits + from.bits + from.bits - bit - self.bits)) % (1 << self.bits)) as u8
    }

    // The i-th whole group of bytes.
    pub(crate) fn group_of(self, bytes: &[u8], i: usize) -> u8
        requires { i < length bytes.now * 8 / self.bits }
        ensures { result ≡ slice_index (whole self.bits bytes.now) i }
    {
        let from = self.begins(i, Width::BYTE);
        let k = from.group;
        let a = byte_or_zero(bytes, k);
        let b = byte_or_zero(bytes, k + 1);
        let c = byte_or_zero(bytes, k + 2);
        self.cut(Width::BYTE, from.bit, a, b, c)
    }

    // The bytes that `count` groups take.
    pub(crate) fn bytes_for(self, count: usize) -> usize
        ensures { result ≡ bytes_for self.bits count }
    {
        let end = self.begins(count, Width::BYTE);
        if end.bit > 0 {
            end.group + 1
        } else {
            end.group
        }
    }

    // How many whole groups there are in bytes, and how many bits behind them.
    pub(crate) fn whole_groups(self, bytes: &[u8]) -> Place
        ensures group { result.group ≡ length bytes.now * 8 / self.bits }
        ensures bit { result.bit ≡ length bytes.now * 8 % self.bits }
    {
        Width::BYTE.begins(bytes.len(), self)
    }

    // How many groups of bytes are left without a last one that is padding.
    pub(crate) fn kept(self, padding: u8, bytes: &[u8]) -> usize
        ensures bound { result ≤ length bytes.now * 8 / self.bits }
        ensures value { take result (whole self.bits bytes.now) ≡ remaining self.bits padding bytes.now }
    {
        let end = self.whole_groups(bytes);
        let n = end.group;
        if n == 0 || self.bits + end.bit > 7 {
            return n;
        }
        if self.group_of(bytes, n - 1) == padding {
            return n - 1;
        }
        n
    }

    // Whether the bits behind the whole groups are the front of the padding group.
    pub(crate) fn ends_padded(self, padding: u8, bytes: &[u8]) -> bool
        requires { padding < 2 ^ self.bits }
        ensures { result ≡ pad_behind self.bits padding bytes.now }
    {
        let bit = self.whole_groups(bytes).bit;
        if bit == 0 {
            return true;
        }
        let last = u32::from(bytes[bytes.len() - 1]);
        last % (1 << bit) == u32::from(padding) >> (self.bits - bit)
    }
}
