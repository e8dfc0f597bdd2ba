// Register names: families and widths, and the families that a call overwrites.
#![tactic(auto)]

mod families; // `family` of the Rust: the table, the high bytes, r with digits, stack slots
mod rows; // a row of fixed-width names
mod volatile; // the volatile lists

pub use families::{RAX, Spelled, family};
pub use volatile::{number_of, overwritten};
