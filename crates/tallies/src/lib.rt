// What a listing holds, counted from its tape: lines, tokens, bytes of text, calls, labels; and what of
// it the listing of another tape keeps: calls, addresses. The tape may be any bytes (`held` of crate
// tape says which listing they hold); of an accepted tape, and of a cleaned one, the numbers are those of its listing, as the reference
// counts them.
#![tactic(auto)]

mod addresses; // the first line that has one, and those that are held
mod calls; // calls of a name
mod casts; // calls through a cast pointer
mod fates; // what became of a raw line, and the labels that stand
mod labels; // label lines
mod listing; // the lines of a tape, and their tokens
mod sizes; // lines, tokens, bytes of text
mod staying; // whether each callee is called as often
mod tally; // the pass over the commands that they share

pub use addresses::{Addresses, count_held, first_addressed};
pub use calls::{count_calls, opens};
pub use casts::count_casts;
pub use fates::{Fate, count_standing, fate_of, label_stands};
pub use labels::count_labels;
pub use listing::{Line, Lines, Token, Tokens, line_at};
pub use sizes::{Sizes, count_sizes};
pub use staying::calls_stay;
