// Any number of layers in any order over a driver, as one window, one byte order and one bit order.
#![tactic(auto)]

pub mod either;
pub mod piled;
pub mod piles;

pub use either::Either;
pub use piled::{Perhaps, Piled, lay_on};
pub use piles::{Added, Pile, brought};
