// What the cautions ask of a listing's lines, as functions over token words: the changes and brackets of tokens (marks, frames), which
// lines are not looked into, the forms of lines, the lines that may come next, and how far a register's value goes along them.
#![tactic(auto)]

mod forms; // the form of a line
mod lineforms; // what a walk asks of one line
mod frames; // brackets, and what stands outside them
mod comparing; // comparisons, and `!` in front
mod marks; // changes in a text, byte by byte
mod opaque; // lines that are not looked into
mod gathering; // what is asked of each line, in a table
mod blocks; // the lines that close and open a block
mod ways; // the lines that may come next
mod reaching; // how far a value goes
mod values; // what a line does to a value
mod between; // what stands between an assignment and its last use
mod handed; // whether a value is handed over
mod spelling; // what is kept of a form as it is put together

pub use between::{is_odd, past_call};
pub use forms::{is_case_word, is_control_word};
pub use frames::{
    Frame, frame_of, frame_of_expr, is_loose, is_loose_expr, is_truth, is_truth_expr,
};
pub use gathering::{NO_FORM, form_at, gather_forms};
pub use handed::{is_handed, is_slot};
pub use lineforms::{Form, LineForm, line_form};
pub use marks::{Marking, marks_of};
pub use opaque::{holds, is_opaque};
pub use reaching::{count_set, hangs, is_dark, is_known, is_stale, mark_next, reached};
pub use values::{ends, is_guarded, reads};
pub use ways::{FormedListing, Next, next_of};
