// A listing's tokens and lines: how they are held, the families of tokens, and the shapes of lines.
#![tactic(auto)]

pub mod codes; // the families and widths that words keep
pub mod fams; // the families of tokens, and what a line does with one
pub mod marks; // the marks of lines
pub mod shapes; // what a line is by its tokens
pub mod traits; // what the cleaner asks of a token's text
pub mod texts; // where texts stand, a listing as it stands in the tables, and how much of them is in use
pub mod words; // a token and a line, each in one number
