// The profile of straight pieces, asked of a loaded listing: its first line that breaks it.
ghost use Rattle.std.specs.Prelude.{◌≡◌, ◌+◌, ◌<◌, ◌≤◌, false, length, ◌==◌};
ghost use Rattle.reference.specs.Options.{option_of};
ghost use Rattle.reference.specs.Control.{◌and◌};
ghost use Rattle.reference.specs.Lists.{is_some};
ghost use Rattle.reference.specs.Text.{Text};
ghost use Rattle.reference.specs.Evaluators.{modulo, lexemes, evaluate};
ghost use Rattle.reference.specs.Straight.{zeros, puncts_apart, assigns_wide, returns_value, breaks};
ghost use Rattle.lines.specs.Words as Words;
ghost use Rattle.lines.specs.Texts as Lent;
ghost use Rattle.lines.specs.Lines.{indent_of, part_of, first_of, count_of, Reading, listing_read};
ghost use Rattle.formula.specs.Line.{tokens_of, Readable, ReadableIn};
ghost use Rattle.formula.specs.Profile.{Filled};

use crate::evaluators::evaluate;
use crate::line::Line;
use crate::terms::is_wide;
use ground::kinds;
use lines::texts::Texts;
use lines::traits::Kw;
use lines::{shapes, words};

// Whether tokens are `before`, an expression and `;`. An empty table of values serves.
pub(crate) fn is_read(texts: &Texts<'_>, words: &[u64], before: &[u8]) -> bool
    requires { ReadableIn texts.now words.now }
    ensures { result ≡ is_some (evaluate modulo zeros before.now (lexemes (Lent.tokens_of texts.now words.now))) }
{
    let line = Line {
        texts: *texts,
        words,
    };
    evaluate(&line, &[], before).is_some()
}

// Whether no two Puncts stand side by side.
pub(crate) fn puncts_apart(line: &[u64]) -> bool
    ensures { (tape area : Text) → result ≡ puncts_apart false (Words.tokens_of tape area line.now) }
{
    !line.windows(2).any(|pair| words::kind(pair[0]) == kinds::PUNCT
        && words::kind(pair[1]) == kinds::PUNCT)
}

// Whether a line assigns to a 64-bit register, as the profile wants it.
// Kept: a function of its own beside `returns_value`. One for both would be no plainer: it would take its first test as a closure, and a
// text besides, in place of one line.
fn assigns_wide(line: &Line<'_>) -> bool
    requires { Readable line.now }
    ensures { result ≡ assigns_wide (tokens_of line.now) }
{
    match line.words {
        [] => false,
        [first, rest @ ..] => {
            is_wide(&line.texts, *first) && is_read(&line.texts, rest, b" = ") && puncts_apart(rest)
        }
    }
}

// Whether a line returns a value, as the profile wants it.
fn returns_value(line: &Line<'_>) -> bool
    requires { Readable line.now }
    ensures { result ≡ returns_value (tokens_of line.now) }
{
    match line.words {
        [] => false,
        [first, rest @ ..] => {
            shapes::is_kw(&line.texts, *first, Kw::Return)
                && is_read(&line.texts, rest, b" ")
                && puncts_apart(rest)
        }
    }
}

// Whether a line but the last is in the profile; `indent` is the first line's.
// Kept: a function of its own beside `returns_here`. One for both would be no plainer: it would take `assigns_wide` or `returns_value` as a
// closure, and its clause would have to be of what the closure promises.
fn assigns_here(texts: &Texts<'_>, tokens: &[u64], l: u64, indent: u64) -> bool
    requires { (first_of l + count_of l ≤ length tokens.now) × ReadableIn texts.now (part_of tokens.now l) }
    ensures { result ≡ (indent_of l == indent and assigns_wide (Lent.tokens_of texts.now (part_of tokens.now l))) }
{
    let line = Line {
        texts: *texts,
        words: words::line_of(tokens, l),
    };
    words::indent(l) == indent && assigns_wide(&line)
}

// The same of the last line.
fn returns_here(texts: &Texts<'_>, tokens: &[u64], l: u64, indent: u64) -> bool
    requires { (first_of l + count_of l ≤ length tokens.now) × ReadableIn texts.now (part_of tokens.now l) }
    ensures { result ≡ (indent_of l == indent and returns_value (Lent.tokens_of texts.now (part_of tokens.now l))) }
{
    let line = Line {
        texts: *texts,
        words: words::line_of(tokens, l),
    };
    words::indent(l) == indent && returns_value(&line)
}

// The first line that breaks the profile; the lines' texts are all in the tape.
// Kept: tape, tokens and lines, no `Listing`, which would be no plainer: of the two callers crate clean would make one for this call alone,
// with the tape as an area besides, and the two functions above ask of one line, by its word.
pub fn breaks(tape: &[u8], tokens: &[u64], lines: &[u64]) -> Option<usize>
    requires { Filled tape.now tokens.now lines.now }
    ensures { (reading : Reading) → option_of result ≡ breaks (listing_read tape.now tape.now tokens.now reading lines.now) }
{
    if lines.is_empty() {
        return Some(0);
    }
    let texts = Texts { tape, area: tape };
    let indent = words::indent(lines[0]);
    let last = lines.len() - 1;
    let front = &lines[..last];
    if let Some(i) = front
        .iter()
        .position(|l| !assigns_here(&texts, tokens, *l, indent))
    {
        return Some(i);
    }
    if !returns_here(&texts, tokens, lines[last], indent) {
        return Some(last);
    }
    None
}
