// The whole run: `propagate_once` and `optimize` of the Rust. (Its cuts, `drop_dead_results`, are crate cuts.)
#![tactic(auto)]

mod rounds; // a round's attempts
mod run; // the rounds, then the cuts

pub use run::{Outcome, Tally, optimize};
