// Bytes in upper-case hexadecimal.
ghost use Rattle.std.specs.Prelude.{Some};
ghost use Rattle.sets.specs.Sets.{content};
ghost use Rattle.scan.specs.Views.{name_of};
ghost use Rattle.listing.specs.Lines.{hex};

use scan::Identifier;
use std::fmt;

/// Bytes, two digits to each.
#[derive(Clone, Copy, Debug)]
pub struct Hex<'a>(pub &'a [u8]);

impl fmt::Display for Hex<'_> {
    ghost output = { λ h. Some (hex h.0.now) };

    fn fmt<W: fmt::Write>(&self, f: &mut fmt::Formatter<W>) -> fmt::Result {
        for &b in self.0 {
            write!(f, "{b:02X}")?;
        }
        Ok(())
    }
}

/// The content of an identifier, in whatever form it is written.
#[derive(Clone, Copy, Debug)]
pub struct IdentifierHex<'a>(pub Identifier<'a>);

impl fmt::Display for IdentifierHex<'_> {
    ghost output = { λ h. Some (hex (content (name_of h.0))) };

    fn fmt<W: fmt::Write>(&self, f: &mut fmt::Formatter<W>) -> fmt::Result {
        match self.0 {
            Identifier::Bare(n) | Identifier::Byte(n) => write!(f, "{}", Hex(&[n])),
            Identifier::Led(content) => write!(f, "{}", Hex(content)),
        }
    }
}
