// What a line does to a family's value, and whether the value is read again: `touch`, `killed_first`, `dead_after` of the Rust, and the
// labels of a round.
#![tactic(auto)]

mod dead; // the scan of the lines after a use
mod liveness; // what one line decides, and the lines that a jump back runs again
mod jumps; // `while` and `goto`
mod labels; // the places of the label lines
mod touches; // how a line touches a family

pub use dead::dead_after;
pub use labels::{LabelledListing, gather_labels, shift_labels};
pub use liveness::Followed;
pub use touches::{Touched, kills, touch, uses};
