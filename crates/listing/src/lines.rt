// One line for the tag, one for each set, one for the bytes used.
ghost use Rattle.std.specs.Prelude.{◌≡◌, Some};
ghost use Rattle.sets.specs.Sets.{content};
ghost use Rattle.scan.specs.Views.{name_of};
ghost use Rattle.listing.specs.Lines.{state, tag_text, set_text, used_text};

use super::fills::fill;
use super::hexes::{Hex, IdentifierHex};
use reading::Entry;
use std::fmt;

#[derive(Clone, Copy, Debug, PartialEq, Eq)]
pub struct TagLine {
    pub blocks: usize,
    pub size: usize,
    pub format: u8,
}

impl fmt::Display for TagLine {
    ghost output = { λ t. Some (tag_text t.blocks t.size t.format) };

    fn fmt<W: fmt::Write>(&self, f: &mut fmt::Formatter<W>) -> fmt::Result {
        write!(
            f,
            "tag blocks {} size {} format {}",
            self.blocks, self.size, self.format
        )
    }
}

fn state_name(sealed: bool) -> &'static str
    ensures value { result.now ≡ state sealed }
{
    if sealed { "sealed" } else { "open" }
}

#[derive(Clone, Copy, Debug)]
pub struct SetLine<'i, 's>(pub Entry<'i, 's>);

impl fmt::Display for SetLine<'_, '_> {
    ghost output = { λ s. Some (set_text s.0.place.at s.0.place.size s.0.sealed (content (name_of s.0.identifier)) s.0.place.code s.0.object.now) };

    fn fmt<W: fmt::Write>(&self, f: &mut fmt::Formatter<W>) -> fmt::Result {
        let at = self.0.place.at;
        let size = self.0.place.size;
        let state = state_name(self.0.sealed);
        let identifier = IdentifierHex(self.0.identifier);
        let code = self.0.place.code;
        let object = Hex(self.0.object);
        write!(f, "set {at} {size} {state} {identifier} {code} {object}")
    }
}

#[derive(Clone, Copy, Debug, PartialEq, Eq)]
pub struct UsedLine {
    pub used: usize,
    pub total: usize,
}

impl fmt::Display for UsedLine {
    ghost output = { λ u. Some (used_text u.used u.total) };

    fn fmt<W: fmt::Write>(&self, f: &mut fmt::Formatter<W>) -> fmt::Result {
        write!(
            f,
            "used {} of {} fill {}",
            self.used,
            self.total,
            fill(self.used, self.total)
        )
    }
}
