// Which start value gives this output (request M-107): the smallest value of a chosen register for which a formula returns a wanted value.
#![tactic(auto)]

mod call; // the questions, and the answer
mod listed; // the list of names with their start values
mod reckoning; // a formula reckoned in pairs of a multiplier and a constant
mod starts; // where the registers of a formula start

pub use call::start_value;
pub use listed::{is_register, unknown_name};
