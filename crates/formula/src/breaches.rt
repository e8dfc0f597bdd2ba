// What in a line breaks the profile of straight pieces: its tests one after the other, and the first that fails.
ghost use Rattle.std.specs.Prelude.{◌≡◌, ℕ, ◌+◌, ◌++◌, ◌<◌, ◌≤◌, ◌^◌, length, Some};
ghost use Rattle.reference.specs.Options.{option_of};
ghost use Rattle.reference.specs.Lists.{any, is_some};
ghost use Rattle.reference.specs.Evaluators.{lexemes, behind};
ghost use Rattle.lines.specs.Lines.{Reading, listing_read};
ghost use Rattle.lines.specs.Texts.{token_of, Points};
ghost use Rattle.formula.specs.Line.{tokens_of, Readable};
ghost use Rattle.formula.specs.Profile.{Filled};
ghost use Rattle.formula.specs.Breaches.{is_narrow, is_untidy, is_unread, is_foreign, open_past, open_in, open_after, open_behind};
ghost use Rattle.formula.specs.Breaches.{is_paired, token_tests, before, no_beginning, whole_tests, no_front, begins, tests_of};
ghost use Rattle.formula.specs.Breaches.{first_breach, breach_at, Tells};

use crate::line::Line;
use crate::places::{Place, behind};
use crate::profile::{is_read, puncts_apart};
use crate::terms::{is_tidy, is_wide};
use ground::kinds;
use lines::texts::Texts;
use lines::traits::Kw;
use lines::{shapes, words};
use numbers::parse_c_number;

// What breaks the profile: the tests in the order in which they are asked.
#[derive(Clone, Copy, Debug, PartialEq, Eq)]
pub enum Breach {
    NoLine, // the listing has no line of this number
    Indent, // not the first line's
    NoToken,
    NoReturn, // the last line does not begin with it
    NoTarget, // another line does not begin with a 64-bit register
    NarrowRegister, // behind the first token, as all that follow
    UntidyNumber, // a plus, a second minus, a zero in front
    UnreadNumber, // C does not read it
    ForeignToken, // no Register, Number or Punct
    NoBlank, // behind `return`
    NoEquals, // behind the register
    Brackets, // one that is not closed, or not opened
    Signs, // no terms joined by ` + ` and ` - `, and `;` behind them
    TwoPuncts, // side by side
}

// ---- tokens

fn is_narrow(texts: &Texts<'_>, w: u64) -> bool
    requires { Points texts.now w }
    ensures { result ≡ is_narrow (token_of texts.now w) }
{
    words::kind(w) == kinds::REGISTER && !is_wide(texts, w)
}

fn is_untidy(texts: &Texts<'_>, w: u64) -> bool
    requires { Points texts.now w }
    ensures { result ≡ is_untidy (token_of texts.now w) }
{
    words::kind(w) == kinds::NUMBER && !is_tidy(words::text(texts, w))
}

fn is_unread(texts: &Texts<'_>, w: u64) -> bool
    requires { Points texts.now w }
    ensures { result ≡ is_unread (token_of texts.now w) }
{
    words::kind(w) == kinds::NUMBER && parse_c_number(words::text(texts, w)).is_none()
}

fn is_foreign(texts: &Texts<'_>, w: u64) -> bool
    requires { Points texts.now w }
    ensures { result ≡ is_foreign (token_of texts.now w) }
{
    let kind = words::kind(w);
    !(kind == kinds::REGISTER || kind == kinds::NUMBER || kind == kinds::PUNCT)
}

fn has_narrow(line: &Line<'_>) -> bool
    requires { Readable line.now }
    ensures { result ≡ any is_narrow (tokens_of line.now) }
{
    line.words.iter().any(|w| is_narrow(&line.texts, *w))
}

fn has_untidy(line: &Line<'_>) -> bool
    requires { Readable line.now }
    ensures { result ≡ any is_untidy (tokens_of line.now) }
{
    line.words.iter().any(|w| is_untidy(&line.texts, *w))
}

fn has_unread(line: &Line<'_>) -> bool
    requires { Readable line.now }
    ensures { result ≡ any is_unread (tokens_of line.now) }
{
    line.words.iter().any(|w| is_unread(&line.texts, *w))
}

fn has_foreign(line: &Line<'_>) -> bool
    requires { Readable line.now }
    ensures { result ≡ any is_foreign (tokens_of line.now) }
{
    line.words.iter().any(|w| is_foreign(&line.texts, *w))
}

// ---- brackets

// How many brackets are open behind a byte, n being open before it.
fn open_past(n: u64, b: u8) -> Option<u64>
    requires { n + 1 < 2 ^ 64 }
    ensures { option_of result ≡ open_past n b }
{
    match b {
        b'(' => Some(n + 1),
        b')' => n.checked_sub(1),
        _ => Some(n),
    }
}

// ... behind a text.
fn open_in(start: u64, s: &[u8]) -> Option<u64>
    requires { start + length s.now < 2 ^ 64 }
    ensures open { option_of result ≡ open_in start s.now }
    ensures few { (n : ℕ) → result ≡ Some n → n ≤ start + length s.now }
{
    let mut n = start;
    for b in s {
        n = open_past(n, *b)?;
    }
    Some(n)
}

// ... behind a token.
fn open_after(texts: &Texts<'_>, n: u64, w: u64) -> Option<u64>
    requires { Points texts.now w × (n + 65536 < 2 ^ 64) }
    ensures open { option_of result ≡ open_after n (token_of texts.now w) }
    ensures few { (m : ℕ) → result ≡ Some m → m < n + 65536 }
{
    if words::kind(w) == kinds::PUNCT {
        open_in(n, words::text(texts, w))
    } else {
        Some(n)
    }
}

// ... behind a line's tokens.
fn open_behind(line: &Line<'_>) -> Option<u64>
    requires { Readable line.now × (length line.now.words.now ≤ 1024) }
    ensures { option_of result ≡ open_behind 0 (tokens_of line.now) }
{
    let mut n = 0;
    for w in line.words {
        n = open_after(&line.texts, n, *w)?;
    }
    Some(n)
}

fn is_paired(line: &Line<'_>) -> bool
    requires { Readable line.now × (length line.now.words.now ≤ 1024) }
    ensures { result ≡ is_paired (tokens_of line.now) }
{
    match open_behind(line) {
        Some(n) => n == 0,
        None => false,
    }
}

// ---- a line

// The tokens behind a line's first, each by itself.
#[tactic(auto, unfolding(crate::specs::Breaches::first_breach))]
fn token_breach(line: &Line<'_>) -> Option<Breach>
    requires { Readable line.now }
    ensures { result ≡ first_breach (token_tests (tokens_of line.now)) }
{
    if has_narrow(line) {
        Some(Breach::NarrowRegister)
    } else if has_untidy(line) {
        Some(Breach::UntidyNumber)
    } else if has_unread(line) {
        Some(Breach::UnreadNumber)
    } else if has_foreign(line) {
        Some(Breach::ForeignToken)
    } else {
        None
    }
}

fn begins_with(line: &Line<'_>, before: &[u8]) -> bool
    requires { Readable line.now }
    ensures { result ≡ is_some (behind before.now (lexemes (tokens_of line.now))) }
{
    behind(line, Place { token: 0, byte: 0 }, before).is_some()
}

fn before(last: bool) -> &'static [u8]
    ensures { result.now ≡ before last }
{
    if last { b" " } else { b" = " }
}

fn no_beginning(last: bool) -> Breach
    ensures { result ≡ no_beginning last }
{
    if last {
        Breach::NoBlank
    } else {
        Breach::NoEquals
    }
}

// The same tokens together.
#[tactic(auto, unfolding(crate::specs::Breaches::first_breach))]
fn whole_breach(line: &Line<'_>, last: bool) -> Option<Breach>
    requires { Readable line.now × (length line.now.words.now ≤ 1024) }
    ensures { result ≡ first_breach (whole_tests last (tokens_of line.now)) }
{
    if !begins_with(line, before(last)) {
        Some(no_beginning(last))
    } else if !is_paired(line) {
        Some(Breach::Brackets)
    } else if !is_read(&line.texts, line.words, before(last)) {
        Some(Breach::Signs)
    } else if !puncts_apart(line.words) {
        Some(Breach::TwoPuncts)
    } else {
        None
    }
}

// The tokens behind a line's first.
fn expression_breach(line: &Line<'_>, last: bool) -> Option<Breach>
    requires { Readable line.now × (length line.now.words.now ≤ 1024) }
    ensures { result ≡ first_breach (token_tests (tokens_of line.now) ++ whole_tests last (tokens_of line.now)) }
{
    match token_breach(line) {
        Some(breach) => Some(breach),
        None => whole_breach(line, last),
    }
}

fn begins(texts: &Texts<'_>, first: u64, last: bool) -> bool
    requires { Points texts.now first }
    ensures { result ≡ begins last (token_of texts.now first) }
{
    if last {
        shapes::is_kw(texts, first, Kw::Return)
    } else {
        is_wide(texts, first)
    }
}

fn no_front(last: bool) -> Breach
    ensures { result ≡ no_front last }
{
    if last {
        Breach::NoReturn
    } else {
        Breach::NoTarget
    }
}

// The tokens of a line.
#[tactic(auto, unfolding(crate::specs::Breaches::first_breach, crate::specs::Breaches::tests_of))]
fn tokens_breach(line: &Line<'_>, last: bool) -> Option<Breach>
    requires { Readable line.now × (length line.now.words.now ≤ 1024) }
    ensures { result ≡ first_breach (tests_of last (tokens_of line.now)) }
{
    match line.words {
        [] => Some(Breach::NoToken),
        [first, rest @ ..] => {
            if begins(&line.texts, *first, last) {
                let behind_first = Line {
                    texts: line.texts,
                    words: rest,
                };
                expression_breach(&behind_first, last)
            } else {
                Some(no_front(last))
            }
        }
    }
}

// What breaks the profile in a line of a loaded listing, counted from 0: its first test that fails.
pub fn breach_at(tape: &[u8], tokens: &[u64], lines: &[u64], n: usize) -> Option<Breach>
    requires { Filled tape.now tokens.now lines.now × (length tokens.now ≤ 1024) }
    ensures first { (reading : Reading) → result ≡ breach_at (listing_read tape.now tape.now tokens.now reading lines.now) n }
    ensures tells { (reading : Reading) → Tells (listing_read tape.now tape.now tokens.now reading lines.now) }
{
    if lines.len() <= n {
        return Some(Breach::NoLine);
    }
    if words::indent(lines[n]) != words::indent(lines[0]) {
        return Some(Breach::Indent);
    }
    let line = Line {
        texts: Texts { tape, area: tape },
        words: words::line_of(tokens, lines[n]),
    };
    tokens_breach(&line, n + 1 == lines.len())
}
