// Numbers of a listing, as bytes and as signed values of 64 bits.
#![tactic(auto)]

mod constant; // numbers by the 2024 edition of C
mod parse; // `parse_c_number` of the Rust
mod print; // the text of a folded number
mod read; // numbers by an edition
mod wrapping; // sums, differences and negations that wrap

pub use constant::{begins_binary, row};
pub use parse::parse_c_number;
pub use print::{last_digit, put_digits, put_number};
pub use read::read_number;
pub use wrapping::{MOST, wrapping_add, wrapping_sub};
