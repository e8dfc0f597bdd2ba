// The cautions of each line of a listing, kept as its cleaning goes on: raised by each join and each cut, and handed on with the lines.
// (`kept_cautions` of crate cautions.) Where no cautions are asked for, the tables are empty and nothing is done.
#![tactic(auto)]

mod beginning; // before the first step
mod cuts; // one cut
mod joins; // one join
mod noting; // what each line that a join rewrites tells before it
mod renewing; // what a join leaves on the lines that it rewrote
mod spreading; // what a step puts on the lines that the value reaches
mod tables; // the tables

pub use beginning::begin;
pub use cuts::{after_cut, before_cut};
pub use joins::{after_join, before_join};
pub use tables::Raising;
