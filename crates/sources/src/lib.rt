// The raw lines that came into a finished line (request M-105), asked of the cleaning itself: a copy of the tape in which one line alone
// has an address is cleaned, and the finished lines that have marks are those that this line came into.
#![tactic(auto)]

mod calls; // the copy, and what its one line came into
mod copying; // its commands
mod walking; // the marks of a cleaned tape, as flags

pub use calls::{came_into, only};
