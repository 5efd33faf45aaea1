// Which identifiers can stand.
ghost use Rattle.std.specs.Prelude.{◌≡◌, true, MatchBool};
ghost use Rattle.sets.specs.Laws.{Proper};
ghost use Rattle.sets.specs.Parsing.{arcs};
ghost use Rattle.scan.specs.Identifiers.{is_proper};

/// Whether content bytes are whole arcs: none begins with 80, and the last byte is below 80.
pub fn whole_arcs(content: &[u8]) -> bool
    ensures value { result ≡ arcs true content.now }
{
    let mut begins = true;
    for b in content {
        if begins && *b == 0x80 {
            return false;
        }
        begins = *b < 0x80;
    }
    begins
}

/// Whether an identifier can stand on a tag: 1 to 32 bytes of whole arcs.
pub fn is_proper(identifier: &[u8]) -> bool
    ensures value { result ≡ is_proper identifier.now }
    ensures cases { MatchBool result (Proper identifier.now) (Proper identifier.now → ⊥) }
{
    (1..=32).contains(&identifier.len()) && whole_arcs(identifier)
}
