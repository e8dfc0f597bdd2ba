// The text forms of a tape: a tape as text to read, as text in the exact form, and the exact form back as a tape. What is right stands in
// specs/, on lists; that the exact form reads back as the tape itself is a theorem there (proofs/ReadBack.antt).
#![tactic(auto)]

mod fields; // a field of the exact form
mod forms; // a command as text
mod reading; // the exact form read
mod room; // bytes put as far as they fit
mod showing; // a whole tape as text

pub use reading::{Unmade, put_tape};
pub use showing::{Shown, put_listing};
