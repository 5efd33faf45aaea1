// The layout of a gap: which bytes it holds once its sets are laid out anew.
#![tactic(auto)]

mod gaps;
mod items;
mod measured;
mod ready;

pub use gaps::lay_out;
pub use items::{Behind, LayoutFault, Readied};
pub use ready::lay_ready;
pub use writing::Item;
