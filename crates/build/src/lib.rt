// The builder of a new listing. A line is appended to a second set of texts and token words, joined (`merge` of the Rust) and folded in
// place, or kept as it is; what stands below the used marks of the set is never touched.
#![tactic(auto)]

mod append; // a word, a text, more text for the last token
pub mod builder; // a set that a listing is built in
mod fold; // numbers folded in place
pub mod line; // a line kept or rewritten
pub mod merge; // tokens joined one by one

pub use builder::Builder;
