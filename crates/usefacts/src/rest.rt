// What else a line reads beside a use: its tokens without the use, without what stands from a `goto` on, and without the first one where
// the line only writes it. They stand in two runs of the line's tokens, and every question goes over both.
#![tactic(auto, using(laws::proofs::Std::tests_of_std))]

ghost use Rattle.std.specs.Prelude.{◌≡◌, ◌≤◌, [], drop, take, ltb, length};
ghost use Rattle.reference.specs.Options.{option_of};
ghost use Rattle.reference.specs.Lists.{any, position, remove};
ghost use Rattle.reference.specs.Rules.{volatile};
ghost use Rattle.cautions.specs.Texts.{marks};
ghost use Rattle.cautions.specs.Values.{changeable, is_cell, is_volatile, only_written, widths_in, world};
ghost use Rattle.ground.specs.Rules.{rules_of};
ghost use Rattle.lines.specs.Texts.{Holds, token_of, tokens_of};
ghost use Rattle.usefacts.specs.Reads.{last_text};
ghost use Rattle.usefacts.specs.Rest.{kept, words_of, tokens_in, Held, RestOf};

use crate::reads::{self, text_at};
use crate::widths;
use ground::rules::Rules;
use lines::texts::Texts;
use lines::traits::Kw;
use lines::{shapes, words};

// The two runs of words.
#[derive(Clone, Copy)]
pub struct Rest<'a> {
    pub front: &'a [u64],
    pub back: &'a [u64],
}

// The place of the first token that changes something.
fn mark_at(texts: &Texts<'_>, line: &[u64]) -> Option<usize>
    requires { Holds texts.now line.now }
    ensures { option_of result ≡ position (λ t. ltb 0 (marks t)) (tokens_of texts.now line.now) }
{
    line.iter().position(|w| 0 < flow::marks_of(texts, *w))
}

// Whether a line stores its value by ` = `: what its first token names is only written.
#[tactic(auto, using(crate::proofs::Resting::writing))]
fn is_only_written(texts: &Texts<'_>, line: &[u64]) -> bool
    requires { Holds texts.now line.now }
    ensures { result ≡ only_written (tokens_of texts.now line.now) }
{
    match mark_at(texts, line) {
        Some(k) => flow::holds(b" = ", text_at(texts, line, k)),
        None => false,
    }
}

// How many tokens stand in front of a `goto`, or how many there are.
#[tactic(auto, using(crate::proofs::Resting::keeping))]
fn kept(texts: &Texts<'_>, line: &[u64]) -> usize
    requires { Holds texts.now line.now }
    ensures is { result ≡ kept (tokens_of texts.now line.now) }
    ensures inside { result ≤ length line.now }
{
    match shapes::kw_at(texts, line, Kw::Goto) {
        Some(k) => k,
        None => line.len(),
    }
}

// The first n words of a line without the one at u.
#[tactic(auto, using(crate::proofs::Resting::removing))]
fn without_use<'a>(line: &'a [u64], u: usize, n: usize) -> Rest<'a>
    requires { n ≤ length line.now }
    ensures { words_of result ≡ remove u (take n line.now) }
{
    if n <= u {
        return Rest {
            front: &line[..n],
            back: &line[n..n],
        };
    }
    Rest {
        front: &line[..u],
        back: &line[u + 1..n],
    }
}

// The words of a run behind its first.
#[tactic(auto, using(crate::proofs::Resting::tails))]
fn tail<'a>(ws: &'a [u64]) -> &'a [u64]
    ensures { result.now ≡ drop 1 ws.now }
{
    if ws.len() == 0 {
        return ws;
    }
    &ws[1..]
}

// Both runs without the first word.
#[tactic(auto, using(crate::proofs::Resting::dropping))]
fn without_first<'a>(r: &Rest<'a>) -> Rest<'a>
    ensures { words_of result ≡ drop 1 (words_of r.now) }
{
    if r.front.len() == 0 {
        return Rest {
            front: r.front,
            back: tail(r.back),
        };
    }
    Rest {
        front: tail(r.front),
        back: r.back,
    }
}

// What a line reads beside the use at u.
#[tactic(auto, using(crate::proofs::Resting::resting))]
pub(crate) fn rest_of<'a>(texts: &Texts<'_>, line: &'a [u64], u: usize) -> Rest<'a>
    requires { Holds texts.now line.now }
    ensures { RestOf texts.now line.now u result }
{
    let n = kept(texts, line);
    let r = without_use(line, u, n);
    if is_only_written(texts, line) {
        return without_first(&r);
    }
    r
}

// The text of the last token of a run.
#[tactic(auto, using(crate::proofs::Resting::ending))]
fn end_text<'a>(texts: &Texts<'a>, ws: &[u64]) -> &'a [u8]
    requires { Holds texts.now ws.now }
    ensures { result.now ≡ last_text [] (tokens_of texts.now ws.now) }
{
    if ws.len() == 0 {
        return b"";
    }
    words::text(texts, ws[ws.len() - 1])
}

// Whether both runs, one behind the other, read memory that has a name or an address.
#[tactic(auto, using(crate::proofs::Resting::worlds))]
pub(crate) fn is_world(texts: &Texts<'_>, r: &Rest<'_>) -> bool
    requires { Held texts.now r.now }
    ensures { result ≡ world (tokens_in texts.now r.now) }
{
    let next = text_at(texts, r.back, 0);
    if reads::reads_between(texts, b"", r.front, next) {
        return true;
    }
    reads::reads_between(texts, end_text(texts, r.front), r.back, b"")
}

// Whether one of their tokens is a stack slot, or another name of kind Register that is no general register.
#[tactic(auto, using(crate::proofs::Resting::eithers))]
fn has_cell(texts: &Texts<'_>, r: &Rest<'_>) -> bool
    requires { Held texts.now r.now }
    ensures { result ≡ any is_cell (tokens_in texts.now r.now) }
{
    if reads::has_cell(texts, r.front) {
        return true;
    }
    reads::has_cell(texts, r.back)
}

// Whether one is a register that a call overwrites.
#[tactic(auto, using(crate::proofs::Resting::eithers))]
fn has_volatile(texts: &Texts<'_>, r: &Rest<'_>, rules: Rules) -> bool
    requires { Held texts.now r.now }
    ensures { result ≡ any (is_volatile (volatile (rules_of rules))) (tokens_in texts.now r.now) }
{
    if reads::has_volatile(texts, r.front, rules) {
        return true;
    }
    reads::has_volatile(texts, r.back, rules)
}

// Whether a call may change what they read.
#[tactic(auto, using(laws::proofs::Scans::tests), unfolding(cautions::specs::Values::changeable, cautions::specs::Values::memory))]
pub(crate) fn is_changeable(texts: &Texts<'_>, r: &Rest<'_>, rules: Rules) -> bool
    requires { Held texts.now r.now }
    ensures { result ≡ changeable (volatile (rules_of rules)) (tokens_in texts.now r.now) }
{
    is_world(texts, r) || has_cell(texts, r) || has_volatile(texts, r, rules)
}

// Whether one of their tokens has a width below 64.
#[tactic(auto, using(crate::proofs::Resting::narrow))]
pub(crate) fn has_below(texts: &Texts<'_>, r: &Rest<'_>, rules: Rules) -> bool
    requires { Held texts.now r.now }
    ensures { result ≡ any (λ x. ltb x 64) (widths_in rules.convention [] (tokens_in texts.now r.now)) }
{
    if widths::has_below(texts, b"", r.front, rules) {
        return true;
    }
    widths::has_below(texts, end_text(texts, r.front), r.back, rules)
}
