// A line as it stands in the tables: what travels from function to function as one.
use lines::texts::Texts;

// A word for each of its tokens, and where their texts stand.
// Kept: that the words point into their texts and that no text is empty (`Readable`) is asked in contracts, and is no invariant of `Line`.
// `has_junk`, which is public, asks of a `Line` only that its words point into their texts: it would ask more of its callers. And each of
// the four places that make a `Line` (`is_read`, `assigns_here`, `returns_here`, `behind_first` of crate start) would have to show it
// there, by the clause that it has now. That a place stands in a line (`Placed`, `InLine`) is a fact of two values, and a `Place` holds no
// line.
#[derive(Clone, Copy)]
pub struct Line<'a> {
    pub texts: Texts<'a>,
    pub words: &'a [u64],
}
