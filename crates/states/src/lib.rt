// What the holder of a tag has between calls, and why a call is declined.
#![tactic(auto)]

mod faults;
mod holding;

pub use faults::{CallFault, Lent};
pub use holding::{Back, Noted, OpenState, Pledge};
