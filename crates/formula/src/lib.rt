// Straight pieces (request M-106): whether a listing is in the profile, by the evaluators of expressions, and what in a line breaks it.
#![tactic(auto)]

pub mod breaches;
pub mod evaluators;
pub mod line;
pub mod places;
pub mod profile;
pub mod tabled;
pub mod terms;

pub use breaches::{Breach, breach_at};
pub use profile::breaks;
pub use tabled::load;
