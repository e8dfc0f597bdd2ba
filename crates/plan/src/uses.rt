// The single use of a definition, and whether the right side can take its place there: the second half of `try_at` of the Rust.
ghost use Rattle.std.specs.Prelude.{◌≡◌, false, ◌<◌, ltb, eqb, length, get_or};
ghost use Rattle.reference.specs.Options.{option_of};
ghost use Rattle.reference.specs.Control.{not, ◌and◌, ◌or◌};
ghost use Rattle.reference.specs.Rules.{volatile};
ghost use Rattle.reference.specs.Join.{text_before, text_after, standalone, use_width, use_lowest, is_compound, replaceable};
ghost use Rattle.joining.specs.Plan.{look, use_of};
ghost use Rattle.lines.specs.Codes.{family_number};
ghost use Rattle.lines.specs.Lines.{indent_of, part_of};
ghost use Rattle.ground.specs.Rules.{rules_of};
ghost use Rattle.plan.specs.Uses.{looked, same_run, leaves_inputs};
ghost use Rattle.plan.specs.Texts.{Sound, definition_in};
ghost use Rattle.lines.specs.Texts.{Holds, Known, Lined, Listed, bare_in, bare_listing, fam_text, tokens_of, words_at};

use crate::definitions::Definition;
use ground::kinds;
use ground::rules::Rules;
use life::Touched;
use linefacts::{fact_number, is_calling, is_transparent};
use lines::fams::{Fam, Named};
use lines::texts::{Listing, Texts};
use lines::traits::{self, has};
use lines::{fams, shapes, words};

// What a line after a definition is to it: its single use, a line that it may pass, or the end of the search.
#[derive(Clone, Copy)]
pub enum Look {
    Use,
    Passes,
    Stops,
}

// Whether a line is in one run with a definition at this indent: no call, no brace, the same indent. `calls` says that the definition
// calls.
fn same_run(listing: &Listing<'_>, base_indent: u64, calls: bool, l: u64) -> bool
    requires { Lined listing.now.texts listing.now.tokens.now l }
    ensures { result ≡ same_run base_indent calls (bare_in listing.now.texts listing.now.tokens.now l) }
{
    let line = words::line_of(listing.tokens, l);
    !calls
        && !shapes::opens_or_closes(&listing.texts, line)
        && !shapes::has_call(&listing.texts, line)
        && words::indent(l) == base_indent
}

// Whether a line assigns to a register what the definition d, of the line `source`, does not read.
fn leaves_inputs(texts: &Texts<'_>, source: &[u64], line: &[u64], d: Definition) -> bool
    requires { Holds texts.now source.now × Holds texts.now line.now
        × Sound texts.now source.now d }
    ensures { result ≡ leaves_inputs (definition_in texts.now source.now d).expr
        (tokens_of texts.now line.now) }
{
    let Some(_) = shapes::assignment(texts, line) else {
        return false;
    };
    let Some(n) = fams::name_of(texts, line[0]) else {
        return false;
    };
    !fams::mentions(texts, source, d.expr, n.family)
        && !(d.reads && has(texts, line[0], traits::SLOT))
}

// What the line l is to the definition d of the line s.
fn look_at(listing: &Listing<'_>, s: u64, l: u64, d: Definition, rules: Rules) -> Look
    requires { Lined listing.now.texts listing.now.tokens.now s × Lined listing.now.texts listing.now.tokens.now l
        × Sound listing.now.texts (part_of listing.now.tokens.now s) d }
    ensures { looked result ≡ look (indent_of s) (definition_in listing.now.texts (part_of listing.now.tokens.now s) d)
        (volatile (rules_of rules)) (bare_in listing.now.texts listing.now.tokens.now l) }
{
    let source = words::line_of(listing.tokens, s);
    let line = words::line_of(listing.tokens, l);
    if shapes::is_label(&listing.texts, line) {
        return Look::Stops;
    }
    match life::touch(&listing.texts, line, d.name.family, rules) {
        Touched::Use(1) => Look::Use,
        Touched::Nothing
            if same_run(listing, words::indent(s), d.calls, l)
                && leaves_inputs(&listing.texts, source, line, d) => { Look::Passes }
        _ => Look::Stops,
    }
}

// What the search for the single use makes of a line, by its facts where they tell it: a calling line ends the run, and a transparent line
// of the same run is only asked what it leaves alone. n is the number of the family.
fn look_by_facts(listing: &Listing<'_>, s: u64, l: u64, d: Definition, n: u64, rules: Rules) -> Look
    requires { Lined listing.now.texts listing.now.tokens.now s × Lined listing.now.texts listing.now.tokens.now l
        × Sound listing.now.texts (part_of listing.now.tokens.now s) d
        × (n ≡ family_number (fam_text listing.now.texts d.name.family)) }
    ensures { looked result ≡ look (indent_of s) (definition_in listing.now.texts (part_of listing.now.tokens.now s) d)
        (volatile (rules_of rules)) (bare_in listing.now.texts listing.now.tokens.now l) }
{
    if is_calling(l, n) {
        return Look::Stops;
    }
    if !is_transparent(l, n) {
        return look_at(listing, s, l, d, rules);
    }
    let source = words::line_of(listing.tokens, s);
    let line = words::line_of(listing.tokens, l);
    if !d.calls
        && words::indent(l) == words::indent(s)
        && leaves_inputs(&listing.texts, source, line, d)
    {
        Look::Passes
    } else {
        Look::Stops
    }
}

// The line with the single use of the definition d of line i: the next line that touches it, through lines that it may pass.
pub fn use_of(listing: &Listing<'_>, i: usize, d: Definition, rules: Rules) -> Option<usize>
    requires { Listed listing.now
        × Sound listing.now.texts (words_at listing.now i) d × (i < length listing.now.lines.now) }
    ensures { option_of result ≡ use_of (bare_listing listing.now) i
        (definition_in listing.now.texts (words_at listing.now i) d) (volatile (rules_of rules)) }
{
    let s = listing.lines[i];
    let n = fact_number(&listing.texts, d.name.family);
    for j in i + 1..listing.lines.len() {
        match look_by_facts(listing, s, listing.lines[j], d, n, rules) {
            Look::Use => return Some(j),
            Look::Passes => {}
            Look::Stops => return None,
        }
    }
    None
}

// ---- the token that uses it
// Kept: a line and a place in it, with `pos < length line` wherever the token there is read: `line.get(pos)` would be a case for no token,
// which never comes, since `pos` is what `fams::first_of` found; and a struct of the two would ask the same as its invariant.

// Whether the widths of a definition and of its use go together.
fn widths_fit(width: u64, used: u64) -> bool
    ensures { result ≡ not ((ltb used 32 or ltb width 32) and not (eqb used width)) }
{
    used == width || (32 <= used && 32 <= width)
}

// The width of the token at `pos`.
fn use_width(texts: &Texts<'_>, line: &[u64], pos: usize) -> u64
    requires { Holds texts.now line.now × (pos < length line.now) }
    ensures { result ≡ use_width (tokens_of texts.now line.now) pos }
{
    fams::name_of(texts, line[pos]).map_or(64, |n| n.width)
}

// Whether the token at `pos` is written through a compound operator: it stands first, and an operator follows that is not ` = `.
fn is_compound(texts: &Texts<'_>, line: &[u64], pos: usize) -> bool
    requires { Holds texts.now line.now }
    ensures { result ≡ is_compound (tokens_of texts.now line.now) pos }
{
    pos == 0
        && 2 <= line.len()
        && words::kind(line[1]) == kinds::PUNCT
        && !has(texts, line[1], traits::ASSIGN)
        && text::begins_operator(words::text(texts, line[1]))
}

// Whether the use at `pos` may be replaced by an expression of this width, whatever its part.
fn fits(texts: &Texts<'_>, line: &[u64], pos: usize, f: Fam, width: u64) -> bool
    requires { Holds texts.now line.now × (pos < length line.now) × Known texts.now f }
    ensures { result ≡ replaceable false (record { name = fam_text texts.now f; width = width; lowest = 0 })
        (tokens_of texts.now line.now) pos }
{
    widths_fit(width, use_width(texts, line, pos))
        && !is_compound(texts, line, pos)
        && !fams::writes(texts, line, f)
}

// Whether the token at `pos` has less than 32 bits, and another lowest bit.
fn begins_elsewhere(texts: &Texts<'_>, line: &[u64], pos: usize, lowest: u64) -> bool
    requires { Holds texts.now line.now × (pos < length line.now) }
    ensures { result ≡ (ltb (use_width (tokens_of texts.now line.now) pos) 32
        and not (eqb (use_lowest (tokens_of texts.now line.now) pos) lowest)) }
{
    fams::name_of(texts, line[pos]).is_some_and(|n| n.width < 32 && n.lowest != lowest)
}

// Whether the use at `pos` may be replaced by an expression that was assigned to `name`: its width of its family, from its lowest bit on.
// Under `parts` a use below 32 bits must be the same part (M-104); its width is asked in any case.
pub fn use_fits(texts: &Texts<'_>, line: &[u64], pos: usize, name: Named, parts: bool) -> bool
    requires { Holds texts.now line.now × (pos < length line.now) × Known texts.now name.family }
    ensures { result
        ≡ replaceable parts
        (record { name = fam_text texts.now name.family; width = name.width; lowest = name.lowest })
        (tokens_of texts.now line.now) pos }
{
    fits(texts, line, pos, name.family, name.width)
        && !(parts && begins_elsewhere(texts, line, pos, name.lowest))
}

// Whether the token at `pos` stands between delimiters.
pub fn is_standalone(texts: &Texts<'_>, line: &[u64], pos: usize) -> bool
    requires { Holds texts.now line.now × (pos < length line.now) }
    ensures { result ≡ standalone (text_before (tokens_of texts.now line.now) pos)
        (text_after (tokens_of texts.now line.now) pos) }
{
    pos != 0
        && pos + 1 < line.len()
        && has(texts, line[pos - 1], traits::DELIMITS_BEFORE)
        && has(texts, line[pos + 1], traits::DELIMITS_AFTER)
}
