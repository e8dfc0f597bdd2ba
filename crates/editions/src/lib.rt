// Between the two C editions: request M-103.
#![tactic(auto)]

mod entry; // the two calls
mod questions; // 12 and 13
mod texts; // a Number going down
mod writing; // a tape going down, written

pub use entry::{to_2018, to_2024};
