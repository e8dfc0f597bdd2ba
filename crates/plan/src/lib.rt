// An attempt's decision: shared slices in, a plan out. Nothing is written.
#![tactic(auto)]

pub mod changing; // whether a plan changes a line
pub mod definitions; // what an attempt starts from
pub mod plans; // the decision
mod reaches; // how far a constant reaches, and whether every use takes it
pub mod slots; // the stack slots that are addressed, gathered and looked up
mod uses; // the single use of a definition
