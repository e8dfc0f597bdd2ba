// One attempt (`try_at` of the Rust): decided by crate plan, carried out here.
#![tactic(auto)]

mod apply; // a plan carried out, one way or the other
pub mod attempt; // the decision, and what follows it
mod changing; // what a plan puts in the place of its register
mod marks; // the marks of the line that is joined, handed on
mod patch; // in place: only the lines that change are written
mod rebuild; // the whole listing written anew
mod spare; // the room that a plan takes, and the room that there is
pub mod workspace; // what the attempts of a run work in

pub use attempt::try_at;
pub use workspace::Workspace;
