// Identifiers as they are written: in the nibble, in one byte, or behind a lead byte.
ghost use Rattle.std.specs.Prelude.{◌≡◌};
ghost use Rattle.sets.specs.Writing.{shortest};
ghost use Rattle.scan.specs.Views.{name_of};

use scan::Identifier;

// The shortest way to write an identifier.
pub(crate) fn spelled<'a>(identifier: &'a [u8]) -> Identifier<'a>
    ensures { name_of result ≡ shortest identifier.now }
{
    match identifier {
        [0] => Identifier::Led(identifier),
        [n] if *n < 15 => Identifier::Bare(*n),
        [n] => Identifier::Byte(*n),
        _ => Identifier::Led(identifier),
    }
}
