// What is to stand as a set.
ghost use Rattle.std.specs.Prelude.{◌≡◌, MatchResult};
ghost use Rattle.writing.specs.Forms.{wanted, Sizes, Writes, Refused};

use super::WriteFault;
use super::forms::Form;
use super::names::spelled;
use codes::Kind;
use packing::plan;
use scan::is_proper;

/// An identifier and an object of a kind, to stand as a set.
#[derive(Clone, Copy, Debug, PartialEq, Eq)]
pub struct Item<'a> {
    pub identifier: &'a [u8],
    pub kind: Kind,
    pub object: &'a [u8],
}

impl<'a> Item<'a> {
    // The set that it is with `extra` bytes of offset and pad.
    fn form(self, extra: usize) -> Result<Form<'a>, WriteFault>
        ensures { MatchResult result (λ f. (f.extra ≡ extra) × (f.item ≡ self.entry)) (Refused extra (wanted self.entry)) }
    {
        if !is_proper(self.identifier) {
            return Err(WriteFault::Identifier);
        }
        let packed = plan(self.kind, self.object).map_err(|_| WriteFault::Size)?;
        if extra > 256 {
            return Err(WriteFault::Extra);
        }
        Ok(Form {
            item: self,
            extra,
            name: spelled(self.identifier),
            packed,
        })
    }

    /// The bytes of its smallest form.
    pub fn size(self) -> Result<usize, WriteFault>
        ensures { Sizes (wanted self.entry) result }
    {
        Ok(self.form(0)?.size())
    }

    /// The smallest form with `extra` bytes of offset and pad at the front of `out`, and how many bytes it has.
    pub fn write(self, extra: usize, out: &mut [u8]) -> Result<usize, WriteFault>
        ensures { Writes extra (wanted self.entry) out.old out.new result }
    {
        let form = self.form(extra)?;
        let size = form.size();
        if out.len() < size {
            return Err(WriteFault::Short(size));
        }
        Ok(form.write(out))
    }
}
