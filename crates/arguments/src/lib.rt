// The words that the program `puchkewa` was started with, read as a request. What is right stands in specs/Requests.antt, written from the
// help's grammar: `parse` answers that, for all bytes.
#![tactic(auto, using(laws::proofs::Std::words_of_std))]

mod base_names; // files that would be written to one
mod entries; // operands REG=VALUE
mod first_word; // the next word
mod reading; // one word more, and all of them
mod request; // what is known of a request so far
mod values; // operands that stand for a value
mod word_tables; // which words, options and operands there are

pub use base_names::{base_name, clash};
pub use first_word::{is_at, next_word};
pub use reading::{parse, put_entries};
pub use request::{
    Action, Destination, Fault, Flag, Form, Goal, Kind, Operands, Part, Problem, Request, Start,
    Value, Verb, Wanted,
};
