// One text for every code: an object is packed group by group, and unpacked byte by byte.
ghost use Rattle.std.specs.Prelude.{◌≡◌, ◌+◌, ◌<◌, [], ◌∷◌, ◌++◌, true, length, slice_index, Ok, MatchResult, MatchBool};
ghost use Rattle.codes.specs.Bits.{bytes_for};
ghost use Rattle.codes.specs.Table.{permitted, packed_code, unpacked_code};
ghost use Rattle.packing.specs.Packing.{Sized, Declined, said, Measured, Packs, Unpacks};

use super::choice::{PackFault, UnpackFault};
use super::code::Code;
use super::kept::Kept;
use super::spelled::Spelled;
use super::widths::Width;
use codes::Fault;

// Whether an object has 1 to 2,048 bytes.
pub(crate) fn is_sized(object: &[u8]) -> bool
    ensures { MatchBool result (Sized object.now) (Sized object.now → ⊥) }
{
    (1..=2048).contains(&object.len())
}

impl<'a, C: Code> Spelled<'a, C> {
    // An object that the code is for.
    pub(crate) fn of(code: &'a C, object: &'a [u8]) -> Self
        requires { permitted (C.listed code.now) object.now ≡ true }
        ensures code { result.code.now ≡ code.now }
        ensures object { result.object.now ≡ object.now }
    {
        Spelled {
            code,
            object,
            count: code.count(object),
        }
    }

    // An object of 1 to 2,048 bytes, if the code is for it.
    fn new(code: &'a C, object: &'a [u8]) -> Result<Self, PackFault>
        ensures { MatchResult result (λ s. Sized object.now × (s.code.now ≡ code.now) × (s.object.now ≡ object.now)) (Declined (C.listed code.now) object.now) }
    {
        if !is_sized(object) {
            return Err(PackFault::Size);
        }
        if !code.suits(object) {
            return Err(PackFault::NotPermitted);
        }
        Ok(Spelled::of(code, object))
    }
}

impl<C: Code> Spelled<'_, C> {
    // The bytes that the object takes when it is packed.
    pub(crate) fn length(&self) -> usize
        ensures { result ≡ length (packed_code (C.listed self.now.code.now) self.now.object.now) }
    {
        self.code.width().bytes_for(self.count)
    }

    // The i-th group of the object; behind its groups stands the padding group.
    fn group_or_pad(&self, i: usize) -> u8
        requires { i < self.now.count + 2 }
        ensures { result ≡ slice_index (C.spelled self.now.code.now self.now.object.now ++ (C.pad self.now.code.now ∷ C.pad self.now.code.now ∷ [])) i }
    {
        if i < self.count {
            self.code.group(self.object, i)
        } else {
            self.code.padding()
        }
    }

    // Stays: `Width::group_of` cuts three neighbours alike; a closure that gets them would need its value said of each.
    fn byte(&self, j: usize) -> u8
        requires { j < bytes_for (C.wide self.now.code.now) self.now.count }
        ensures { result ≡ slice_index (packed_code (C.listed self.now.code.now) self.now.object.now) j }
    {
        let width = self.code.width();
        let from = Width::BYTE.begins(j, width);
        let k = from.group;
        let a = self.group_or_pad(k);
        let b = self.group_or_pad(k + 1);
        let c = self.group_or_pad(k + 2);
        Width::BYTE.cut(width, from.bit, a, b, c)
    }

    // The packed object, in the bytes that it takes.
    fn write(&self, out: &mut [u8])
        requires { length out.old ≡ length (packed_code (C.listed self.now.code.now) self.now.object.now) }
        ensures { out.new ≡ packed_code (C.listed self.now.code.now) self.now.object.now }
    {
        for (j, byte) in out.iter_mut().enumerate() {
            *byte = self.byte(j);
        }
    }
}

pub(crate) fn pack_with<C: Code>(
    code: &C,
    object: &[u8],
    out: &mut [u8],
) -> Result<usize, PackFault>
    ensures { Packs (C.listed code.now) object.now out.old out.new result }
{
    let spelled = Spelled::new(code, object)?;
    let n = spelled.length();
    if out.len() < n {
        return Err(PackFault::TooShort(n));
    }
    spelled.write(&mut out[..n]);
    Ok(n)
}

impl<'a, C: Code> Kept<'a, C> {
    fn of(code: &'a C, bytes: &'a [u8]) -> Self
        ensures code { result.code.now ≡ code.now }
        ensures bytes { result.bytes.now ≡ bytes.now }
    {
        let count = code.width().kept(code.padding(), bytes);
        Kept { code, bytes, count }
    }
}

impl<C: Code> Kept<'_, C> {
    // The length of the object that the bytes say.
    fn length(&self) -> Result<usize, Fault>
        ensures { Measured (unpacked_code (C.listed self.now.code.now) self.now.bytes.now) result }
    {
        let width = self.code.width();
        let length = self.code.length(self.bytes, self.count)?;
        if !width.ends_padded(self.code.padding(), self.bytes) {
            return Err(Fault::NoPadding(width.whole_groups(self.bytes).group));
        }
        Ok(length)
    }

    // That object, in the bytes that it has.
    fn write(&self, out: &mut [u8])
        requires { Measured (unpacked_code (C.listed self.now.code.now) self.now.bytes.now) (Ok (length out.old)) }
        ensures { out.new ≡ said (unpacked_code (C.listed self.now.code.now) self.now.bytes.now) }
    {
        for (i, byte) in out.iter_mut().enumerate() {
            *byte = self.code.byte(self.bytes, self.count, i);
        }
    }
}

pub(crate) fn measure_with<C: Code>(code: &C, bytes: &[u8]) -> Result<usize, Fault>
    ensures { Measured (unpacked_code (C.listed code.now) bytes.now) result }
{
    Kept::of(code, bytes).length()
}

pub(crate) fn unpack_with<C: Code>(
    code: &C,
    bytes: &[u8],
    out: &mut [u8],
) -> Result<usize, UnpackFault>
    ensures { Unpacks (unpacked_code (C.listed code.now) bytes.now) out.old out.new result }
{
    let kept = Kept::of(code, bytes);
    let length = kept.length()?;
    if out.len() < length {
        return Err(UnpackFault::Short(length));
    }
    kept.write(&mut out[..length]);
    Ok(length)
}
