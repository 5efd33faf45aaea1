// What a tag is: its shape, its dump, and how a fault of either is told.
#![tactic(auto)]

pub mod dumps;
pub mod faults;
mod formats;
mod parts;
pub mod shapes;

pub use faults::{DumpFault, Layer, Refusal};
pub use formats::known_format;
pub use parts::Dump;
pub use shapes::Shape;
