// What is told of cautions: the ten kinds, each with its name and its sentence; the sets that the library's call writes, and how many lines
// are cautioned; and the words for a set. The definitions are those of specs/Told.antt; the kinds themselves are crate cautions'.
#![tactic(auto, using(text::proofs::Cursors::room_left, text::proofs::Cursors::then_puts))]

mod cautions_told; // the words for a set, and for a whole listing
mod each; // the ten kinds
mod sets; // the sets of a call

pub use cautions_told::{put_head, put_kinds, silence};
pub use each::{ALL, Caution};
pub use sets::{count_cautioned, set_at};
