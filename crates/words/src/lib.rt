// The words of a slice, and the numbers that digits stand for. What words ask for is said above this, in crate arguments: the text form of
// a listing needs numbers, and no grammar.
#![tactic(auto)]

mod numerals; // digits that stand for a number
mod splitting; // words, each ended by a 0

pub use numerals::{base_in, integer_in, number_in};
pub use splitting::{nth_word, number_of, word_end};
