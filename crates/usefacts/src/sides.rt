// What stands beside a use: the texts in front and behind, and what they make of an expression that is put between them.
#![tactic(auto, using(laws::proofs::Std::tests_of_std))]

ghost use Rattle.std.specs.Prelude.{◌≡◌, ◌<◌, length, map, take, ◌∷◌, []};
ghost use Rattle.reference.specs.Control.{◌or◌, ◌and◌};
ghost use Rattle.reference.specs.Lists.{any};
ghost use Rattle.reference.specs.Text.{bytes, contains, has, starts_with, ends_with, ◌≟◌};
ghost use Rattle.reference.specs.Join.{standalone, text_before, text_after};
ghost use Rattle.cautions.specs.Texts.{last_byte};
ghost use Rattle.cautions.specs.Uses.{OPERATORS, compares, is_apart};
ghost use Rattle.cautions.specs.Values.{is_spared, is_whole};
ghost use Rattle.lines.specs.Texts.{Holds, tokens_of};

use crate::reads::text_or;
use lines::texts::Texts;

// The text of the token in front of the place u.
#[tactic(auto, using(crate::proofs::Beside::befores))]
pub(crate) fn text_before<'a>(texts: &Texts<'a>, line: &[u64], u: usize) -> &'a [u8]
    requires { Holds texts.now line.now }
    ensures { result.now ≡ text_before (tokens_of texts.now line.now) u }
{
    if u == 0 {
        return b"";
    }
    text_or(texts, line, u - 1, b"")
}

// The text of the token behind it.
#[tactic(auto, using(crate::proofs::Beside::after_is))]
pub(crate) fn text_after<'a>(texts: &Texts<'a>, line: &[u64], u: usize) -> &'a [u8]
    requires { Holds texts.now line.now × (u < length line.now) }
    ensures { result.now ≡ text_after (tokens_of texts.now line.now) u }
{
    text_or(texts, line, u + 1, b"")
}

// Whether what stands between two texts stands between delimiters.
#[tactic(auto, using(laws::proofs::Scans::tests), unfolding(reference::specs::Join::standalone))]
fn is_standalone(before: &[u8], after: &[u8]) -> bool
    ensures { result ≡ standalone before.now after.now }
{
    text::delimits_before(before) && text::delimits_after(after)
}

// Whether it is all that is returned.
#[tactic(auto, using(laws::proofs::Scans::tests))]
fn is_returned(before: &[u8], after: &[u8]) -> bool
    ensures { result ≡ ((before.now ≟ bytes " ") and starts_with after.now (bytes ";")) }
{
    text::same(before, b" ") && text::starts(after, b";")
}

// Whether brackets are spared it: it stands between delimiters, or is all that is returned.
#[tactic(auto, using(laws::proofs::Scans::tests), unfolding(cautions::specs::Values::is_spared))]
pub(crate) fn is_spared(before: &[u8], after: &[u8]) -> bool
    ensures { result ≡ is_spared before.now after.now }
{
    is_standalone(before, after) || is_returned(before, after)
}

// Whether a text in front is one bracket of a call or condition, or the space of a `return`.
fn is_bare(before: &[u8]) -> bool
    ensures { result ≡ has (map bytes ("(" ∷ ")(" ∷ " (" ∷ " " ∷ [])) before.now }
{
    text::same(b"(", before)
        || text::same(b")(", before)
        || text::same(b" (", before)
        || text::same(b" ", before)
}

// Whether a text in front begins a whole argument, condition, right side or returned value.
#[tactic(auto, using(laws::proofs::Scans::tests))]
fn is_begun(before: &[u8]) -> bool
    ensures { result ≡ (ends_with before.now (bytes ", ") or ends_with before.now (bytes " = ")
        or has (map bytes ("(" ∷ ")(" ∷ " (" ∷ " " ∷ [])) before.now) }
{
    text::ends(before, b", ") || text::ends(before, b" = ") || is_bare(before)
}

// Whether it is all of an argument, a condition, a right side or a returned value.
#[tactic(auto, using(laws::proofs::Scans::tests), unfolding(cautions::specs::Values::is_whole))]
pub fn is_whole(before: &[u8], after: &[u8]) -> bool
    ensures { result ≡ is_whole before.now after.now }
{
    is_spared(before, after) && is_begun(before)
}

// Whether a text has a comparison.
#[tactic(auto, using(laws::proofs::Std::tests_of_std), unfolding(cautions::specs::Uses::compares))]
pub fn compares(s: &[u8]) -> bool
    ensures { result ≡ compares s.now }
{
    flow::holds(b" == ", s)
        || flow::holds(b" != ", s)
        || flow::holds(b" < ", s)
        || flow::holds(b" > ", s)
        || flow::holds(b" <= ", s)
        || flow::holds(b" >= ", s)
}

// The last byte of a text; 0 where it has none.
#[tactic(auto, using(crate::proofs::Beside::lasts))]
fn last_byte(s: &[u8]) -> u8
    ensures { result ≡ last_byte s.now }
{
    if s.len() == 0 {
        return 0;
    }
    s[s.len() - 1]
}

// Whether a text ends with an operator's byte.
fn ends_in_operator(s: &[u8]) -> bool
    ensures { result ≡ contains OPERATORS (last_byte s.now) }
{
    text::has_byte(b"+-*/%&|^<>=!~", last_byte(s))
}

// Whether a text behind begins with the generator's delimiters.
#[tactic(auto, using(crate::proofs::Beside::begins))]
fn begins_apart(s: &[u8]) -> bool
    ensures { result ≡ any (λ c. contains (bytes "),; ") c) (take 1 s.now) }
{
    if s.len() == 0 {
        return false;
    }
    text::has_byte(b"),; ", s[0])
}

// Whether two texts are the generator's delimiters: no operator directly in front, and none directly behind.
#[tactic(auto, using(crate::proofs::Beside::aparts))]
pub fn is_apart(before: &[u8], behind: &[u8]) -> bool
    ensures { result ≡ is_apart before.now behind.now }
{
    if before.len() == 0 {
        return false;
    }
    if ends_in_operator(before) {
        return false;
    }
    if !begins_apart(behind) {
        return false;
    }
    !text::starts(behind, b" %")
}
