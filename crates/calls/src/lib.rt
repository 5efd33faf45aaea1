// The calls on a tag behind any driver.
#![tactic(auto)]

mod admission;
mod finds;
mod formats;
mod opens;
mod reads;
mod starts;

pub use finds::{Hit, check_identifier, find};
pub use formats::format;
pub use opens::open;
pub use reads::read;
pub use starts::{Begun, begin};
