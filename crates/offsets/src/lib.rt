// Tapes by offset from the load address (request M-110): a tape of document 01's form brought to that form, and back.
#![tactic(auto)]

mod calls; // the two calls
mod front; // 06 and the base
mod reach; // question 18
mod writing; // the commands, in the other form

pub use calls::{from_offsets, to_offsets};
