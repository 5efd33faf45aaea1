// The formats that are written and read.
ghost use Rattle.std.specs.Prelude.{◌≡◌};
ghost use Rattle.tags.specs.Tags.{known_format};

/// Whether a system byte is that of a tag without directory: access method 0, data format 3 to 28.
pub fn known_format(system: u8) -> bool
    ensures value { result ≡ known_format system }
{
    (3..=28).contains(&system)
}
