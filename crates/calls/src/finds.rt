// Sets by their identifiers.
ghost use Rattle.std.specs.Prelude.{◌≡◌, ◌<◌, [], ◌∷◌, length, position, IfSome};
ghost use Rattle.std.specs.Str.{bytes_eq};
ghost use Rattle.sets.specs.Readings.{found};
ghost use Rattle.scan.specs.Tables.{records};
ghost use Rattle.scan.specs.Views.{content_in};
ghost use Rattle.calls.specs.Rows.{Answers};
ghost use Rattle.calls.specs.Finds.{identifier_row, hit_in, hit_among};

use scan::{SetRecord, is_proper};
use states::CallFault;

/// Which set an identifier names: the first, by its place in the table, and whether another stands behind it.
#[derive(Clone, Copy, Debug, PartialEq, Eq)]
pub struct Hit {
    pub index: usize,
    pub again: bool,
}

/// Whether an identifier can stand on a tag: 1 to 32 bytes of whole arcs.
pub fn check_identifier(identifier: &[u8]) -> Result<(), CallFault>
    ensures answer { Answers (identifier_row identifier.now ∷ []) (λ _. Unit {0}) result }
{
    if !is_proper(identifier) {
        return Err(CallFault::Identifier);
    }
    Ok(())
}

// The place of the first set of this name.
fn place(image: &[u8], sets: &[SetRecord], identifier: &[u8]) -> Option<usize>
    ensures value { result ≡ position (λ r. bytes_eq (content_in image.now r) identifier.now) sets.now }
    ensures cases { IfSome result (λ i. i < length sets.now) }
{
    sets.iter().position(|set| set.is_named(image, identifier))
}

// Stays: image and table are lent apart, and a table is longer than its sets; a pair would be made for one call.
/// The first of the sets that has this identifier, by the records of an image. Where they are those of its scan, it is
/// the first set of the image that has it.
pub fn find(image: &[u8], sets: &[SetRecord], identifier: &[u8]) -> Option<Hit>
    ensures value { result ≡ hit_among image.now identifier.now sets.now }
    ensures found { sets.now ≡ records (found image.now) → result ≡ hit_in identifier.now (found image.now) }
    ensures cases { IfSome result (λ h. h.index < length sets.now) }
{
    let index = place(image, sets, identifier)?;
    let behind = &sets[index + 1..];
    Some(Hit {
        index,
        again: place(image, behind, identifier).is_some(),
    })
}
