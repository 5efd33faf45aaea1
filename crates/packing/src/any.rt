// Each code of the table, as one type.

use super::integer::Integer;
use super::octets::Octets;
use super::rows::Alphabet;

/// Whichever code a set has.
#[derive(Clone, Copy)]
pub(crate) enum AnyCode {
    Octets(Octets),
    Integer(Integer),
    Letters(Alphabet),
}
