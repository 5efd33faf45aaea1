// Identifiers that stand twice.
ghost use Rattle.std.specs.Prelude.{◌≡◌, take};
ghost use Rattle.std.specs.List.{list_any};
ghost use Rattle.std.specs.Str.{bytes_eq};
ghost use Rattle.scan.specs.Views.{content_in};
ghost use Rattle.reading.specs.Inner.{same_content, first_again};

use scan::SetRecord;

// Whether one of the sets has an identifier of this content.
fn has_named(image: &[u8], sets: &[SetRecord], identifier: &[u8]) -> bool
    ensures { result ≡ list_any (λ g. bytes_eq (content_in image.now g) identifier.now) sets.now }
{
    sets.iter().any(|set| set.is_named(image, identifier))
}

// Stays: a closure of `find` does not know that the place it is given lies within, so a count goes along and no part.
// Whether the identifier of a set stands in one of the first `count`, in whatever form each is written.
fn stood(image: &[u8], sets: &[SetRecord], count: usize, set: &SetRecord) -> bool
    ensures value { result ≡ list_any (λ g. same_content image.now g set.now) (take count sets.now) }
{
    let earlier = &sets[..count.min(sets.len())];
    has_named(image, earlier, set.content(image))
}

// The address of the first set whose identifier stood already.
pub(crate) fn first_repeat(image: &[u8], sets: &[SetRecord]) -> Option<usize>
    ensures value { result ≡ first_again image.now sets.now }
{
    sets.iter()
        .enumerate()
        .find(|(i, set)| stood(image, sets, *i, set))
        .map(|(_, set)| set.at)
}
