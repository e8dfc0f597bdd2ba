// Request M-111: named states of a listing, kept in a lent store of eight cells.
#![tactic(auto)]

mod calls; // save, restore, delete, list
mod cells; // one cell, and cells looked for
mod sizes; // the numbers of the store

pub use calls::{delete, list, restore, save};
pub use cells::Entry;
