// What tokens read: cells, memory, and what a call may change.
#![tactic(auto, using(laws::proofs::Std::tests_of_std))]

ghost use Rattle.std.specs.Prelude.{◌≡◌, ◌≤◌, [], length, get_or};
ghost use Rattle.reference.specs.Control.{◌or◌};
ghost use Rattle.reference.specs.Lists.{any, is_some};
ghost use Rattle.reference.specs.Names.{fam_of};
ghost use Rattle.reference.specs.Rules.{volatile};
ghost use Rattle.cautions.specs.Values.{is_cell, is_volatile, memory, changeable, world};
ghost use Rattle.ground.specs.Rules.{rules_of};
ghost use Rattle.lines.specs.Texts.{Holds, Points, token_of, tokens_of};
ghost use Rattle.usefacts.specs.Reads.{reads_here, reads_between, texts_of};

use ground::kinds;
use ground::rules::Rules;
use lines::texts::Texts;
use lines::{fams, words};

// Whether a token has a family.
#[tactic(auto, using(crate::proofs::Reading::families))]
fn has_family(texts: &Texts<'_>, w: u64) -> bool
    requires { Points texts.now w }
    ensures { result ≡ is_some (fam_of (token_of texts.now w)) }
{
    match fams::fam_of(texts, w) {
        Some(_) => true,
        None => false,
    }
}

// Whether a token is a stack slot, or another name of kind Register that is no general register.
#[tactic(auto, using(lines::proofs::shapes::Tests::token_tests), unfolding(cautions::specs::Values::is_cell))]
pub(crate) fn is_cell(texts: &Texts<'_>, w: u64) -> bool
    requires { Points texts.now w }
    ensures { result ≡ is_cell (token_of texts.now w) }
{
    words::kind(w) == kinds::REGISTER
        && (text::starts(words::text(texts, w), b"var_") || !has_family(texts, w))
}

// Whether a token is a register that a call overwrites.
#[tactic(auto, using(crate::proofs::Reading::families))]
pub fn is_volatile_token(texts: &Texts<'_>, w: u64, rules: Rules) -> bool
    requires { Points texts.now w }
    ensures { result ≡ is_volatile (volatile (rules_of rules)) (token_of texts.now w) }
{
    match fams::fam_of(texts, w) {
        Some(n) => fams::is_volatile(texts, n.family, rules),
        None => false,
    }
}

// Whether a token with this kind and text, between two texts, is a read of memory that has a name or an address.
#[tactic(auto, using(crate::proofs::Reading::here), unfolding(crate::specs::Reads::reads_here))]
fn reads_here(texts: &Texts<'_>, before: &[u8], w: u64, after: &[u8]) -> bool
    requires { Points texts.now w }
    ensures { result ≡ reads_here before.now (token_of texts.now w) after.now }
{
    let kind = words::kind(w);
    if kind == kinds::KEYWORD {
        return text::starts(words::text(texts, w), b"*(");
    }
    kind == kinds::SYMBOL && !text::ends(before, b"&") && !text::starts(after, b"(")
}

// The text of the token at a place, and another where there is none.
pub(crate) fn text_or<'a>(texts: &Texts<'a>, ws: &[u64], k: usize, other: &'a [u8]) -> &'a [u8]
    requires { Holds texts.now ws.now }
    ensures { result.now ≡ get_or (texts_of texts.now ws.now) k other.now }
{
    match ws.get(k) {
        Some(w) => words::text(texts, *w),
        None => other,
    }
}

// The text of the token at a place; empty where there is none.
pub(crate) fn text_at<'a>(texts: &Texts<'a>, ws: &[u64], k: usize) -> &'a [u8]
    requires { Holds texts.now ws.now }
    ensures { result.now ≡ get_or (texts_of texts.now ws.now) k [] }
{
    text_or(texts, ws, k, b"")
}

// Whether a part of a run, between two texts, reads memory that has a name or an address.
pub(crate) fn reads_between<'a>(
    texts: &Texts<'a>,
    before: &'a [u8],
    ws: &[u64],
    after: &'a [u8],
) -> bool
    requires { Holds texts.now ws.now }
    ensures { result ≡ reads_between before.now (tokens_of texts.now ws.now) after.now }
{
    let mut last = before;
    for k in 0..ws.len() {
        if reads_here(texts, last, ws[k], text_or(texts, ws, k + 1, after)) {
            return true;
        }
        last = words::text(texts, ws[k]);
    }
    false
}

// Whether a run of tokens does.
#[tactic(auto, using(crate::proofs::Reading::whole))]
pub fn is_world(texts: &Texts<'_>, ws: &[u64]) -> bool
    requires { Holds texts.now ws.now }
    ensures { result ≡ world (tokens_of texts.now ws.now) }
{
    reads_between(texts, b"", ws, b"")
}

pub(crate) fn has_cell(texts: &Texts<'_>, ws: &[u64]) -> bool
    requires { Holds texts.now ws.now }
    ensures { result ≡ any is_cell (tokens_of texts.now ws.now) }
{
    ws.iter().any(|w| is_cell(texts, *w))
}

pub(crate) fn has_volatile(texts: &Texts<'_>, ws: &[u64], rules: Rules) -> bool
    requires { Holds texts.now ws.now }
    ensures { result ≡ any (is_volatile (volatile (rules_of rules))) (tokens_of texts.now ws.now) }
{
    ws.iter().any(|w| is_volatile_token(texts, *w, rules))
}

// Whether a call may change what a run of tokens reads.
#[tactic(auto, using(laws::proofs::Scans::tests), unfolding(cautions::specs::Values::changeable, cautions::specs::Values::memory))]
pub fn is_changeable(texts: &Texts<'_>, ws: &[u64], rules: Rules) -> bool
    requires { Holds texts.now ws.now }
    ensures { result ≡ changeable (volatile (rules_of rules)) (tokens_of texts.now ws.now) }
{
    is_world(texts, ws) || has_cell(texts, ws) || has_volatile(texts, ws, rules)
}
