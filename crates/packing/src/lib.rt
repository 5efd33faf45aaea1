// Packing and unpacking: one text for every code, bound by the interface `Code`.
#![tactic(auto)]

mod alphabet;
mod any;
mod choice;
mod code;
mod codings;
mod groups;
mod integer;
mod kept;
mod octets;
mod rows;
mod spelled;
mod texts;
mod widths;

pub use choice::{PackFault, Packed, UnpackFault, choose, measure, pack, pack_as, plan, unpack};
