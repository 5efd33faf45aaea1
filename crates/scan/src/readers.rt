// The parts of a set, read one after the other.
ghost use Rattle.std.specs.Prelude.{◌≡◌};
ghost use Rattle.sets.specs.Parsing.{one, run, offset, identifier, size_of_object};
ghost use Rattle.scan.specs.Views.{name_of};
ghost use Rattle.scan.specs.Inner.{read_as};

use super::faults::Malformed;
use super::identifiers::whole_arcs;
use super::views::Identifier;

// What of an image is still to be read.
#[derive(Clone, Copy)]
pub(crate) struct Reader<'a> {
    pub(crate) rest: &'a [u8],
}

impl<'a> Reader<'a> {
    fn byte(&mut self) -> Result<u8, Malformed>
        ensures { read_as (λ b. b) result self.new.rest.now ≡ one self.old.rest.now }
    {
        let (byte, rest) = self.rest.split_first().ok_or(Malformed::Past)?;
        self.rest = rest;
        Ok(*byte)
    }

    pub(crate) fn run(&mut self, n: usize) -> Result<&'a [u8], Malformed>
        ensures { read_as (λ r. r.now) result self.new.rest.now ≡ run n self.old.rest.now }
    {
        let (run, rest) = self.rest.split_at_checked(n).ok_or(Malformed::Past)?;
        self.rest = rest;
        Ok(run)
    }

    // The bytes of offset and pad: 0, or the offset byte and one more.
    pub(crate) fn offset(&mut self, precursor: u8) -> Result<usize, Malformed>
        ensures { read_as (λ n. n) result self.new.rest.now ≡ offset precursor self.old.rest.now }
    {
        if precursor < 0x80 {
            return Ok(0);
        }
        Ok(usize::from(self.byte()?) + 1)
    }

    pub(crate) fn identifier(&mut self, nibble: u8) -> Result<Identifier<'a>, Malformed>
        ensures { read_as name_of result self.new.rest.now ≡ identifier nibble self.old.rest.now }
    {
        if nibble < 15 {
            return Ok(Identifier::Bare(nibble));
        }
        let lead = self.byte()?;
        if lead <= 0x70 {
            return Ok(Identifier::Byte(lead + 15));
        }
        if lead < 0x80 || lead > 0x9f {
            return Err(Malformed::Lead);
        }
        let content = self.run(usize::from(lead) - 0x7f)?;
        if !whole_arcs(content) {
            return Err(Malformed::Arcs);
        }
        Ok(Identifier::Led(content))
    }

    // The length of an object, in one byte or in two.
    pub(crate) fn length(&mut self) -> Result<usize, Malformed>
        ensures { read_as (λ n. n) result self.new.rest.now ≡ size_of_object self.old.rest.now }
    {
        let first = usize::from(self.byte()?);
        if first == 0 {
            return Err(Malformed::Empty);
        }
        if first < 0x80 {
            return Ok(first);
        }
        let low = usize::from(self.byte()?);
        let value = (first - 0x80) * 0x80 + low;
        if low >= 0x80 || value < 0x80 {
            return Err(Malformed::Length);
        }
        Ok(value)
    }
}
