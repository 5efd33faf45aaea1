// Sets as they are written: bytes put into a lent slice, part by part.
#![tactic(auto)]

mod faults;
mod forms;
mod items;
mod names;
mod pens;

pub use faults::WriteFault;
pub use items::Item;
