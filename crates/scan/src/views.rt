// What the scan shows: parts of the image, and plain records of where they stand.
ghost use Rattle.std.specs.Prelude.{◌≡◌, ◌≤◌, length};
ghost use Rattle.sets.specs.Sets.{number, part};
ghost use Rattle.std.specs.Str.{bytes_eq};
ghost use Rattle.scan.specs.Views.{name_of, content_in};
ghost use Rattle.scan.specs.Inner.{begin};

use std::slice;

/// Where a set and its parts stand in the image.
// Stays: flat, and the code a number: whoever lends a table fills its records, and may have any numbers in them.
#[derive(Clone, Copy, Debug, PartialEq, Eq)]
pub struct SetRecord {
    /// The identifier where it is written without a lead byte, otherwise 0.
    pub number: u8,
    /// The identifier's content behind a lead byte; without one an empty part at 0.
    pub id_at: usize,
    pub id_len: usize,
    /// The packed object.
    pub object_at: usize,
    pub object_len: usize,
    /// The whole set, with its pad.
    pub at: usize,
    pub size: usize,
    pub code: u8,
}

impl SetRecord {
    /// A record of no set.
    pub const EMPTY: SetRecord = SetRecord {
        number: 0,
        id_at: 0,
        id_len: 0,
        object_at: 0,
        object_len: 0,
        at: 0,
        size: 0,
        code: 0,
    };

    /// The content of the identifier of the set, in whatever form it is written, by the bytes of its image; a part that
    /// lies past them is as long as they go.
    pub fn content<'a>(&'a self, image: &'a [u8]) -> &'a [u8]
        ensures value { result.now ≡ content_in image.now self.now }
    {
        if self.number != 0 {
            return slice::from_ref(&self.number);
        }
        let rest = &image[self.id_at.min(image.len())..];
        &rest[..self.id_len.min(rest.len())]
    }

    /// Whether the identifier of the set has this content, in whatever form it is written.
    pub fn is_named(&self, image: &[u8], identifier: &[u8]) -> bool
        ensures value { result ≡ bytes_eq (content_in image.now self.now) identifier.now }
    {
        match identifier {
            [n] if self.number != 0 => self.number == *n,
            _ => *self.content(image) == *identifier,
        }
    }
}

/// An identifier in the form in which it is written.
#[derive(Clone, Copy, Debug)]
pub enum Identifier<'a> {
    /// A number in the nibble.
    Bare(u8),
    /// A number in one byte.
    Byte(u8),
    /// Content behind a lead byte.
    Led(&'a [u8]),
}

impl<'a> Identifier<'a> {
    /// The number that it is without a lead byte, otherwise 0.
    pub fn number(self) -> u8
        ensures value { result ≡ number (name_of self.entry) }
    {
        match self {
            Identifier::Bare(n) | Identifier::Byte(n) => n,
            Identifier::Led(_) => 0,
        }
    }

    /// How many bytes of content stand behind a lead byte.
    pub fn len(self) -> usize
        ensures value { result ≡ length (part (name_of self.entry)) }
    {
        match self {
            Identifier::Bare(_) | Identifier::Byte(_) => 0,
            Identifier::Led(content) => content.len(),
        }
    }

    // Where its part begins, if it ends at `next`.
    pub(crate) fn part_at(self, next: usize) -> usize
        requires { length (part (name_of self)) ≤ next }
        ensures value { result ≡ begin next (name_of self.entry) }
    {
        match self {
            Identifier::Bare(_) | Identifier::Byte(_) => 0,
            Identifier::Led(content) => next - content.len(),
        }
    }
}

/// A set, with its identifier and its packed object as parts of the image.
#[derive(Clone, Copy, Debug)]
pub struct SetView<'a> {
    pub place: SetRecord,
    /// Bytes of offset and pad.
    pub extra: usize,
    pub identifier: Identifier<'a>,
    pub object: &'a [u8],
}

/// What stands at an address.
#[derive(Clone, Copy, Debug)]
pub enum Scanned<'a> {
    End,
    Filler,
    Set(SetView<'a>),
}
