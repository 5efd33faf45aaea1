// The lines of a listing, as text.
#![tactic(auto)]

mod fills;
mod hexes;
mod lines;
mod listings;
mod refusals;
mod verdicts;

pub use fills::fill;
pub use hexes::{Hex, IdentifierHex};
pub use lines::{SetLine, TagLine, UsedLine};
pub use listings::listing;
pub use refusals::{Refused, RefusedLine};
pub use verdicts::{Passed, examine, pass};
