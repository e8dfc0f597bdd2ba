// The lines that may come next after a line, by its form.
ghost use Rattle.std.specs.Prelude.{◌≡◌, ◌<◌, suc, [], ◌∷◌, eqb, length, get_or};
ghost use Rattle.std.proofs.Math.Option.{some, none};
ghost use Rattle.reference.specs.Listing as L;
ghost use Rattle.reference.specs.Options.{option_of};
ghost use Rattle.reference.specs.Control.{when◌then◌else◌};
ghost use Rattle.reference.specs.Life.{lookup};
ghost use Rattle.reference.specs.Run.{labels_from};
ghost use Rattle.cautions.specs.Forms.{behind, next, next_in};
ghost use Rattle.flow.specs.Ways.{Tabled, forms_of, is_named, jump_in, gives_back, nexts};
ghost use Rattle.flow.specs.Ways.{block_next, goto_next, return_next, while_next, closing_next};
ghost use Rattle.lines.specs.Texts.{Lined, Listed, Points, bare_in, bare_listing, text_of, tokens_of, words_at};
ghost use Rattle.lines.specs.Lines.{part_of};

use crate::blocks;
use crate::lineforms::{Form, LineForm};
use lines::texts::Listing;
use lines::traits::Kw;
use lines::{shapes, words};

// A listing, and what the table has of its lines.
#[derive(Clone, Copy)]
pub struct FormedListing<'a> {
    pub listing: Listing<'a>,
    pub forms: &'a [LineForm],
}

// The lines that may come next: not known, or so many; or the cases of a block, which the line closes, and that line.
#[derive(Clone, Copy)]
pub enum Next {
    Unknown,
    Nowhere,
    One(usize),
    Two(usize, usize),
    Three(usize, usize, usize),
    Cases(usize),
}

// ---- jumps

// Whether a line is the label with the name that the token word w has for its text.
fn is_named(listing: &Listing<'_>, l: u64, w: u64) -> bool
    requires { Lined listing.now.texts listing.now.tokens.now l × Points listing.now.texts w }
    ensures { result ≡ is_named (text_of listing.now.texts w) (bare_in listing.now.texts listing.now.tokens.now l) }
{
    let line = words::line_of(listing.tokens, l);
    if !shapes::is_label(&listing.texts, line) {
        return false;
    }
    text::same(
        words::text(&listing.texts, line[0]),
        words::text(&listing.texts, w),
    )
}

// The line of the label with that name; of equal names the last.
fn label_named(listing: &Listing<'_>, w: u64) -> Option<usize>
    requires { Listed listing.now × Points listing.now.texts w }
    ensures { option_of result ≡ lookup (labels_from 0 (bare_listing listing.now)) (text_of listing.now.texts w) }
{
    listing.lines.iter().rposition(|l| is_named(listing, *l, w))
}

// The line of the label that a line's `goto` names.
fn jump(listing: &Listing<'_>, l: u64) -> Option<usize>
    requires { Listed listing.now × Lined listing.now.texts listing.now.tokens.now l }
    ensures { option_of result ≡ jump_in (bare_listing listing.now) (tokens_of listing.now.texts (part_of listing.now.tokens.now l)) }
{
    let line = words::line_of(listing.tokens, l);
    let g = shapes::kw_at(&listing.texts, line, Kw::Goto)?;
    let s = shapes::symbol_from(line, g + 1)?;
    label_named(listing, line[s])
}

// Whether a line is a bare `return;`, which hands the registers to the caller.
fn gives_back(listing: &Listing<'_>, l: u64) -> bool
    requires { Lined listing.now.texts listing.now.tokens.now l }
    ensures { result ≡ gives_back (tokens_of listing.now.texts (part_of listing.now.tokens.now l)) }
{
    let line = words::line_of(listing.tokens, l);
    let n = line.len();
    if n == 0 {
        return false;
    }
    let at = if n < 2 { 0 } else { n - 2 };
    shapes::is_kw(&listing.texts, line[at], Kw::Return)
}

// ---- by the form

// Where a condition that is false leads, from the line that line c closes: past an `else`, into its block.
fn behind(g: &FormedListing<'_>, c: usize) -> usize
    requires { Tabled g.now × (c < length g.now.listing.lines.now) }
    ensures { result ≡ behind (bare_listing g.now.listing) (forms_of (bare_listing g.now.listing)) c }
{
    match g.forms[c].form {
        Form::Else => c + 1,
        _ => c,
    }
}

// From a line that opens a block, which line c closes.
fn in_block(g: &FormedListing<'_>, k: usize, c: usize) -> Next
    requires { Tabled g.now × (k < length g.now.listing.lines.now) × (c < length g.now.listing.lines.now) }
    ensures { nexts (bare_listing g.now.listing) k result ≡ next_in (bare_listing g.now.listing)
        (forms_of (bare_listing g.now.listing)) k (get_or (forms_of (bare_listing g.now.listing)) k []) c }
{
    match g.forms[k].form {
        Form::If => Next::Two(k + 1, behind(g, c)),
        Form::ElseIf => Next::Three(k + 1, behind(g, c), c),
        Form::Else => Next::One(c),
        Form::Switch => Next::Cases(c),
        _ => Next::Unknown,
    }
}

// From a line that opens a block.
fn of_block(g: &FormedListing<'_>, k: usize) -> Next
    requires { Tabled g.now × (k < length g.now.listing.lines.now) }
    ensures { nexts (bare_listing g.now.listing) k result ≡ block_next (bare_listing g.now.listing) k }
{
    match blocks::closer(g.forms, k) {
        None => Next::Unknown,
        Some(c) => in_block(g, k, c),
    }
}

// From a `goto`, with or without a condition in front.
fn of_goto(g: &FormedListing<'_>, k: usize, guarded: bool) -> Next
    requires { Tabled g.now × (k < length g.now.listing.lines.now) }
    ensures { nexts (bare_listing g.now.listing) k result ≡ goto_next (bare_listing g.now.listing) k guarded }
{
    match jump(&g.listing, g.listing.lines[k]) {
        None => Next::Unknown,
        Some(p) if guarded => Next::Two(k + 1, p),
        Some(p) => Next::One(p),
    }
}

// From a `return`, with or without a condition in front.
fn of_return(g: &FormedListing<'_>, k: usize, guarded: bool) -> Next
    requires { Tabled g.now × (k < length g.now.listing.lines.now) }
    ensures { nexts (bare_listing g.now.listing) k result ≡ return_next (bare_listing g.now.listing) k guarded }
{
    let n = g.listing.lines.len();
    if gives_back(&g.listing, g.listing.lines[k]) {
        if guarded {
            Next::Two(k + 1, n)
        } else {
            Next::One(n)
        }
    } else if guarded {
        Next::One(k + 1)
    } else {
        Next::Nowhere
    }
}

// From the end of a loop that began with `do {`.
fn of_while(g: &FormedListing<'_>, k: usize) -> Next
    requires { Tabled g.now × (k < length g.now.listing.lines.now) }
    ensures { nexts (bare_listing g.now.listing) k result ≡ while_next (bare_listing g.now.listing) k }
{
    match blocks::opener(g.forms, k) {
        None => Next::Unknown,
        Some(d) => match g.forms[d].form {
            Form::Do => Next::Two(k + 1, d),
            _ => Next::Unknown,
        },
    }
}

// From the end of a block.
fn of_closing(g: &FormedListing<'_>, k: usize) -> Next
    requires { Tabled g.now × (k < length g.now.listing.lines.now) }
    ensures { nexts (bare_listing g.now.listing) k result ≡ closing_next (bare_listing g.now.listing) k }
{
    match blocks::opener(g.forms, k) {
        None => Next::Unknown,
        Some(d) => match g.forms[d].form {
            Form::Opening => Next::One(k + 1),
            Form::If => Next::One(k + 1),
            Form::Switch => Next::One(k + 1),
            Form::Else => Next::One(k + 1),
            Form::ElseIf => Next::One(k + 1),
            _ => Next::Unknown,
        },
    }
}

// From a line with no statement and no label: only the first one, the head of the listing, is known.
fn of_empty(k: usize) -> Next
    requires { k < 18446744073709551615 }
    ensures { (lines : L.Listing) → nexts lines k result ≡ (when eqb k 0 then some (suc k ∷ []) else none) }
{
    if k == 0 {
        Next::One(k + 1)
    } else {
        Next::Unknown
    }
}

// The lines that may come next after line k.
pub fn next_of(g: &FormedListing<'_>, k: usize) -> Next
    requires { Tabled g.now × (k < length g.now.listing.lines.now) }
    ensures { nexts (bare_listing g.now.listing) k result ≡ next (bare_listing g.now.listing) (forms_of (bare_listing g.now.listing)) k }
{
    match g.forms[k].form {
        Form::Statement => Next::One(k + 1),
        Form::Label => Next::One(k + 1),
        Form::Opening => Next::One(k + 1),
        Form::Block => Next::One(k + 1),
        Form::Guarded => Next::One(k + 1),
        Form::Do => Next::One(k + 1),
        Form::Goto => of_goto(g, k, false),
        Form::IfGoto => of_goto(g, k, true),
        Form::Return => of_return(g, k, false),
        Form::IfReturn => of_return(g, k, true),
        Form::While => of_while(g, k),
        Form::Closing => of_closing(g, k),
        Form::Empty => of_empty(k),
        _ => of_block(g, k),
    }
}
