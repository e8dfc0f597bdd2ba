// Facts: what a line is known to lack, and whether it calls, kept in its word, so that a scan passes most lines without reading their
// tokens.
//
// Bits 0 to 14 are the families by their numbers. Bit 15 is control flow: all that can make a line a jump, a label, the edge of a block or
// a call of an address. Bit 16 tells that the line has no call mark, bit 17 that it has one. A bit that is not set says nothing.
#![tactic(auto)]

mod gathering; // the facts of lines, made from their tokens
mod transparent; // lines without the family, control flow and calls, and calling lines, by their facts

pub use gathering::gather_facts;
pub use transparent::{fact_number, is_calling, is_transparent};
