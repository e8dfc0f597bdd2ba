// How wide tokens are, and an expression.
#![tactic(auto, using(laws::proofs::Std::tests_of_std))]

ghost use Rattle.std.specs.Prelude.{◌≡◌, ◌<◌, [], eqb, ltb, length, take};
ghost use Rattle.reference.specs.Options.{option_of};
ghost use Rattle.reference.specs.Control.{not, ◌and◌, ◌or◌};
ghost use Rattle.reference.specs.Lists.{any, get};
ghost use Rattle.reference.specs.Text.{bytes, has, ◌≟◌};
ghost use Rattle.reference.specs.Join.{text_or_empty};
ghost use Rattle.reference.specs.Listing.{is, Keyword};
ghost use Rattle.cautions.specs.Forms.{WORDS};
ghost use Rattle.cautions.specs.Values.{full, name_width, cast_width, token_width, widths_in};
ghost use Rattle.cautions.specs.Values.{common, is_cast, natural, is_plain, lone_call};
ghost use Rattle.lines.specs.Texts.{Holds, Points, token_of, tokens_of};
ghost use Rattle.usefacts.specs.Widths.{is_unsized, is_addressed, own_width, passes};

use crate::reads::{self, text_or};
use ground::kinds;
use ground::rules::Rules;
use lines::texts::Texts;
use lines::{fams, shapes, words};

// The kind of an Address, which the cleaner does not ask about.
const ADDRESS: u64 = 5;

// The width of an address.
#[tactic(auto, using(laws::proofs::Std::tests_of_std), unfolding(cautions::specs::Values::full))]
pub fn full(rules: Rules) -> u64
    ensures { result ≡ full rules.convention }
{
    if rules.convention == 0 { 32 } else { 64 }
}

// The width that the generator's name of a variable says.
#[tactic(auto, using(laws::proofs::Std::tests_of_std), unfolding(cautions::specs::Values::name_width))]
fn name_width(s: &[u8], rules: Rules) -> u64
    ensures { result ≡ name_width rules.convention s.now }
{
    if text::starts(s, b"byte_") {
        8
    } else if text::starts(s, b"word_") {
        16
    } else if text::starts(s, b"dword_") {
        32
    } else if text::starts(s, b"qword_") {
        64
    } else {
        full(rules)
    }
}

// The width of a cast, or of what is read through an address.
#[tactic(auto, using(laws::proofs::Std::tests_of_std), unfolding(cautions::specs::Values::cast_width))]
pub fn cast_width(s: &[u8]) -> u64
    ensures { result ≡ cast_width s.now }
{
    if flow::holds(b"int8_t", s) {
        8
    } else if flow::holds(b"int16_t", s) {
        16
    } else if flow::holds(b"int32_t", s) {
        32
    } else if flow::holds(b"int64_t", s) || flow::holds(b"void *", s) {
        64
    } else {
        0
    }
}

// Whether a text is a word of control.
#[tactic(auto, using(crate::proofs::Widening::worded))]
fn is_control(s: &[u8]) -> bool
    ensures { result ≡ has WORDS s.now }
{
    if flow::is_case_word(s) {
        return true;
    }
    flow::is_control_word(s)
}

// Whether it is one, or the cast that changes no width.
#[tactic(auto, using(laws::proofs::Scans::tests))]
fn is_wordy(s: &[u8]) -> bool
    ensures { result ≡ (has WORDS s.now or (s.now ≟ bytes "(unsigned)")) }
{
    is_control(s) || text::same(s, b"(unsigned)")
}

// Whether a token has no width.
#[tactic(auto, using(crate::proofs::Widening::without_width))]
fn is_unsized(texts: &Texts<'_>, w: u64) -> bool
    requires { Points texts.now w }
    ensures { result ≡ is_unsized (token_of texts.now w) }
{
    let kind = words::kind(w);
    if kind == kinds::NUMBER {
        return true;
    }
    if kind == kinds::PUNCT {
        return true;
    }
    if kind == kinds::KEYWORD {
        return is_wordy(words::text(texts, w));
    }
    false
}

// Whether a token behind a text is as wide as an address.
#[tactic(auto, using(crate::proofs::Widening::addressed))]
fn is_addressed(texts: &Texts<'_>, before: &[u8], w: u64) -> bool
    requires { Points texts.now w }
    ensures { result ≡ is_addressed before.now (token_of texts.now w) }
{
    if words::kind(w) == ADDRESS {
        return true;
    }
    if reads::is_cell(texts, w) {
        return true;
    }
    text::ends(before, b"&")
}

// The width of any other token.
#[tactic(auto, using(crate::proofs::Widening::owned))]
fn own_width(texts: &Texts<'_>, w: u64, rules: Rules) -> u64
    requires { Points texts.now w }
    ensures { result ≡ own_width rules.convention (token_of texts.now w) }
{
    let kind = words::kind(w);
    if kind == kinds::SYMBOL {
        return name_width(words::text(texts, w), rules);
    }
    if kind == kinds::KEYWORD {
        return cast_width(words::text(texts, w));
    }
    match fams::fam_of(texts, w) {
        Some(n) => n.width,
        None => 0,
    }
}

// The width of a token behind a text, if it has one.
#[tactic(auto, using(crate::proofs::Widening::token_widths))]
fn token_width(texts: &Texts<'_>, before: &[u8], w: u64, rules: Rules) -> Option<u64>
    requires { Points texts.now w }
    ensures { option_of result ≡ token_width rules.convention before.now (token_of texts.now w) }
{
    if is_unsized(texts, w) {
        return None;
    }
    if is_addressed(texts, before, w) {
        return Some(full(rules));
    }
    Some(own_width(texts, w, rules))
}

// Whether a token behind a text has another width than v.
#[tactic(auto, using(crate::proofs::Widening::passing))]
fn is_other(texts: &Texts<'_>, before: &[u8], w: u64, v: u64, rules: Rules) -> bool
    requires { Points texts.now w }
    ensures { result ≡ passes (λ x. not (eqb x v)) rules.convention before.now (token_of texts.now w) }
{
    match token_width(texts, before, w, rules) {
        Some(x) => x != v,
        None => false,
    }
}

// Whether it has one below 64.
#[tactic(auto, using(crate::proofs::Widening::passing))]
fn is_below(texts: &Texts<'_>, before: &[u8], w: u64, rules: Rules) -> bool
    requires { Points texts.now w }
    ensures { result ≡ passes (λ x. ltb x 64) rules.convention before.now (token_of texts.now w) }
{
    match token_width(texts, before, w, rules) {
        Some(x) => x < 64,
        None => false,
    }
}

// Whether a token of a part of a run, behind a text, has another width than v.
fn has_other<'a>(texts: &Texts<'a>, before: &'a [u8], ws: &[u64], v: u64, rules: Rules) -> bool
    requires { Holds texts.now ws.now }
    ensures { result ≡ any (λ x. not (eqb x v)) (widths_in rules.convention before.now (tokens_of texts.now ws.now)) }
{
    let mut last = before;
    for w in ws {
        if is_other(texts, last, *w, v, rules) {
            return true;
        }
        last = words::text(texts, *w);
    }
    false
}

// Whether one has a width below 64.
pub(crate) fn has_below<'a>(texts: &Texts<'a>, before: &'a [u8], ws: &[u64], rules: Rules) -> bool
    requires { Holds texts.now ws.now }
    ensures { result ≡ any (λ x. ltb x 64) (widths_in rules.convention before.now (tokens_of texts.now ws.now)) }
{
    let mut last = before;
    for w in ws {
        if is_below(texts, last, *w, rules) {
            return true;
        }
        last = words::text(texts, *w);
    }
    false
}

// The first width in a part of a run, behind a text.
fn first_width<'a>(texts: &Texts<'a>, before: &'a [u8], ws: &[u64], rules: Rules) -> Option<u64>
    requires { Holds texts.now ws.now }
    ensures { option_of result ≡ get (widths_in rules.convention before.now (tokens_of texts.now ws.now)) 0 }
{
    let mut last = before;
    for w in ws {
        if let Some(x) = token_width(texts, last, *w, rules) {
            return Some(x);
        }
        last = words::text(texts, *w);
    }
    None
}

// The one width of all tokens that have one; 0 if there are others, or none.
#[tactic(auto, using(crate::proofs::Widening::commons))]
fn common(texts: &Texts<'_>, ws: &[u64], rules: Rules) -> u64
    requires { Holds texts.now ws.now }
    ensures { result ≡ common (widths_in rules.convention [] (tokens_of texts.now ws.now)) }
{
    let Some(v) = first_width(texts, b"", ws, rules) else {
        return 0;
    };
    if has_other(texts, b"", ws, v, rules) {
        return 0;
    }
    v
}

// Whether a run of tokens begins with a Keyword.
#[tactic(auto, using(crate::proofs::Widening::beginning))]
pub(crate) fn begins_with_keyword(texts: &Texts<'_>, ws: &[u64]) -> bool
    ensures { result ≡ any (is Keyword) (take 1 (tokens_of texts.now ws.now)) }
{
    if 0 < ws.len() {
        return words::kind(ws[0]) == kinds::KEYWORD;
    }
    false
}

// Whether a cast or read stands in front of all of an expression.
#[tactic(auto, using(laws::proofs::Scans::tests), unfolding(cautions::specs::Values::is_cast))]
fn is_cast(texts: &Texts<'_>, expr: &[u64]) -> bool
    requires { Holds texts.now expr.now × (length expr.now < 65536) }
    ensures { result ≡ is_cast (tokens_of texts.now expr.now) }
{
    begins_with_keyword(texts, expr) && !flow::is_loose(texts, expr)
}

// The text of the first token of a run.
#[tactic(auto, using(crate::proofs::Widening::front_is))]
fn front_text<'a>(texts: &Texts<'a>, ws: &[u64]) -> &'a [u8]
    requires { Holds texts.now ws.now }
    ensures { result.now ≡ text_or_empty (get (tokens_of texts.now ws.now) 0) }
{
    text_or(texts, ws, 0, b"")
}

// The width of an expression: of the cast or read in front of all of it, or the one that all its names have; else 0.
#[tactic(auto, using(crate::proofs::Widening::naturals))]
pub(crate) fn natural(texts: &Texts<'_>, expr: &[u64], rules: Rules) -> u64
    requires { Holds texts.now expr.now × (length expr.now < 65536) }
    ensures { result ≡ natural rules.convention (tokens_of texts.now expr.now) }
{
    if is_cast(texts, expr) {
        let s = front_text(texts, expr);
        return cast_width(s);
    }
    common(texts, expr, rules)
}

// Whether no operator computes an expression.
#[tactic(auto, using(crate::proofs::Widening::plain))]
pub(crate) fn is_plain(texts: &Texts<'_>, expr: &[u64]) -> bool
    requires { Holds texts.now expr.now × (length expr.now < 65536) }
    ensures { result ≡ is_plain (tokens_of texts.now expr.now) }
{
    if expr.len() == 1 {
        return true;
    }
    is_cast(texts, expr)
}

// Whether an expression is one call.
#[tactic(auto, using(crate::proofs::Widening::calling))]
pub(crate) fn is_lone_call(texts: &Texts<'_>, expr: &[u64]) -> bool
    requires { Holds texts.now expr.now × (length expr.now < 65536) }
    ensures { result ≡ lone_call (tokens_of texts.now expr.now) }
{
    let Some(k) = shapes::call_at(texts, expr) else {
        return false;
    };
    if k != 0 {
        return false;
    }
    !flow::is_loose(texts, expr)
}
