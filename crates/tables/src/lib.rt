// A listing in tables: that of a tape, asked its questions and loaded, and any listing of the tables, written as a tape. The lines go
// through records.
#![tactic(auto)]

pub mod loading; // the questions of a tape and its listing
mod memo; // short tokens that were seen before
pub mod records; // the records of lines
pub mod writing; // the tape of a listing

pub use loading::load;
pub use writing::write;
