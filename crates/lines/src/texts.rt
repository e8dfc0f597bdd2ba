// Where the texts of a listing's tokens stand, a listing as it stands in the tables, and how much of them is in use: what travels from
// function to function as one.
//
// Kept: that words point into their texts (`Points`, `Holds`, `Lined`, `Listed`, `Known` of specs/Texts) is asked in contracts, and is no
// invariant of these structs. `Texts` has no words. Of a `Listing` it is a fact between values, the words of two slices against the lengths
// of the tokens, the tape and the area; an invariant would spare its clause only where a whole listing is lent, while most functions take a
// line or a token beside the texts, and each place that makes a `Listing` of a part of the lines or of another area would have to show it.

// A token's text is a part of the tape or, once it was rewritten, of the area.
#[derive(Clone, Copy)]
pub struct Texts<'a> {
    pub tape: &'a [u8],
    pub area: &'a [u8],
}

// A word for each token and a word for each line, and where the texts stand.
#[derive(Clone, Copy)]
pub struct Listing<'a> {
    pub texts: Texts<'a>,
    pub tokens: &'a [u64],
    pub lines: &'a [u64],
}

// How much of a set of tables is in use: of its lines, its token words and its text.
// Kept: lengths beside lent buffers: there is no heap, and a set is the caller's memory of a fixed size.
#[derive(Clone, Copy)]
pub struct Size {
    pub lines: usize,
    pub tokens: usize,
    pub text: usize,
}
