// The tape of document 01, and its form by offset: what stands at an offset, which tapes are accepted, the walk over a tape's commands, and
// the writing of commands.
#![tactic(auto)]

pub mod commands; // one command, at an offset of the tape
pub mod little_endian; // numbers in bytes, the lowest first
pub mod questions; // which tapes are accepted
pub mod reader; // a tape and its offset
pub mod walk; // the commands of any bytes, one after the other
pub mod writing; // commands put into a lent slice

pub use questions::check;
