// The scan of an image: what stands at an address, as parts of the image, and the table of all sets.
#![tactic(auto)]

mod faults;
mod identifiers;
mod readers;
mod steps;
mod tables;
mod views;

pub use faults::{At, Malformed, ScanFault};
pub use identifiers::{is_proper, whole_arcs};
pub use steps::step;
pub use tables::{Tally, scan_image};
pub use views::{Identifier, Scanned, SetRecord, SetView};
