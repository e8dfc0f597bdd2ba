// The public entry: a tape in, the cleaned tape out (document 01).
#![tactic(auto)]

mod asking; // the questions beside the tape's
mod cleaning; // the whole cleaning of an accepted tape
mod entry; // the questions, then the cleaning
mod tabled; // the tables of a listing, in the frame of the function that fills them
mod told; // what is told of the rounds, in numbers

pub use asking::{asked, outside_profile};
pub use cleaning::{Finished, optimized};
pub use entry::{OUTPUT, clean};
pub use rounds::Tally;
pub use tabled::Tables;
pub use told::Told;
