// Byte slices as texts: comparisons, the rows of literals that the Rust looks for, trimming; bytes put into a slice.
#![tactic(auto)]

mod compare; // two texts, and a byte in a text
mod copying; // a slice copied into another
mod cursor; // bytes put into a lent slice one after the other
mod punctuation; // a function for each row of literals
mod trimming; // a text without the spaces at its edges

pub use compare::{ends, has_byte, same, starts};
pub use copying::copy;
pub use cursor::Cursor;
pub use punctuation::{
    begins_operator, begins_update, delimits_after, delimits_before, has_brace, is_result_name,
};
pub use trimming::trim;
