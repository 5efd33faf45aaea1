// Whether a memory reads as a list of sets: the scan, then its locks, then its identifiers.
#![tactic(auto)]

mod blocks;
mod checks;
mod entries;
mod faults;
mod memories;
mod repeats;

pub use entries::Entry;
pub use faults::ReadFault;
pub use memories::Memory;
