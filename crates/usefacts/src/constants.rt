// Numbers that C may read, or add up, otherwise: those that the two editions read apart, large ones, and how many there are.
#![tactic(auto, using(laws::proofs::Std::tests_of_std))]

ghost use Rattle.std.specs.Prelude.{◌≡◌, ◌^◌, ◌≤◌, ◌<◌, nat_abs};
ghost use Rattle.reference.specs.Lists.{any, count};
ghost use Rattle.reference.specs.Listing.{is, Number};
ghost use Rattle.cautions.specs.Values.{fits, is_small, is_tame};
ghost use Rattle.lines.specs.Texts.{Holds, Points, token_of, tokens_of};
ghost use Rattle.usefacts.specs.Numbers.{is_below_zero, is_same, is_short, is_tame_after, is_tame_text};
ghost use Rattle.usefacts.specs.Split.{is_wild, is_negative};

use ground::kinds;
use lines::texts::Texts;
use lines::words;

// A number's sign and size, under the definitions' words.
#[tactic(auto, using(crate::proofs::Sizes::signs))]
fn is_below_zero(n: i64) -> bool
    ensures { result ≡ is_below_zero n }
{
    n < 0
}

#[tactic(auto, using(crate::proofs::Sizes::sizes))]
fn size(n: i64) -> u64
    ensures { result ≡ nat_abs n }
{
    n.unsigned_abs()
}

// A power of two.
fn power(k: u64) -> u64
    requires { k < 64 }
    ensures { result ≡ 2 ^ k }
{
    1 << k
}

// Whether a number is not negative, and its highest bit of so many is clear.
#[tactic(auto, using(crate::proofs::Sizes::fitting))]
pub(crate) fn fits(width: u64, n: i64) -> bool
    requires { width ≤ 64 }
    ensures { result ≡ fits width n }
{
    if is_below_zero(n) {
        return false;
    }
    size(n) < power(width.saturating_sub(1))
}

// Whether two readings are the same number.
#[tactic(auto, using(crate::proofs::Sizes::sames))]
fn is_same(a: i64, b: i64) -> bool
    ensures { result ≡ is_same a b }
{
    if is_below_zero(a) != is_below_zero(b) {
        return false;
    }
    size(a) == size(b)
}

// Whether a number has 31 bits and a sign, and the sign is written if it has one.
#[tactic(auto, using(crate::proofs::Sizes::shorts))]
fn is_short(minus: bool, b: i64) -> bool
    ensures { result ≡ is_short minus b }
{
    let below = is_below_zero(b);
    let n = size(b);
    if below {
        return minus && n <= 2147483648;
    }
    n < 2147483648
}

// Whether two readings are the same number, of 31 bits and a sign, and the sign is written if it has one.
#[tactic(auto, using(crate::proofs::Sizes::smalls))]
fn is_small(minus: bool, a: i64, b: i64) -> bool
    ensures { result ≡ is_small minus a b }
{
    if !is_same(a, b) {
        return false;
    }
    is_short(minus, b)
}

// Whether the second edition reads a text as a, too, and that is a small number.
#[tactic(auto, using(crate::proofs::Sizes::seconds))]
fn is_tame_after(s: &[u8], a: i64) -> bool
    ensures { result ≡ is_tame_after s.now a }
{
    match numbers::read_number(1, s) {
        Some(b) => is_small(text::starts(s, b"-"), a, b),
        None => false,
    }
}

// Whether both editions read a text as the same small number.
#[tactic(auto, using(crate::proofs::Sizes::firsts))]
fn is_tame_text(s: &[u8]) -> bool
    ensures { result ≡ is_tame_text s.now }
{
    match numbers::read_number(0, s) {
        Some(a) => is_tame_after(s, a),
        None => false,
    }
}

// Whether a token is no Number, or one that both editions read alike, of 31 bits and a written sign.
#[tactic(auto, using(crate::proofs::Sizes::tames))]
pub fn is_tame(texts: &Texts<'_>, w: u64) -> bool
    requires { Points texts.now w }
    ensures { result ≡ is_tame (token_of texts.now w) }
{
    if words::kind(w) != kinds::NUMBER {
        return true;
    }
    is_tame_text(words::text(texts, w))
}

// Whether a run of tokens has a Number that is not tame.
pub fn has_wild(texts: &Texts<'_>, ws: &[u64]) -> bool
    requires { Holds texts.now ws.now }
    ensures { result ≡ any is_wild (tokens_of texts.now ws.now) }
{
    ws.iter().any(|w| !is_tame(texts, *w))
}

#[tactic(auto, using(lines::proofs::shapes::Tests::token_tests))]
fn is_negative(texts: &Texts<'_>, w: u64) -> bool
    requires { Points texts.now w }
    ensures { result ≡ is_negative (token_of texts.now w) }
{
    words::kind(w) == kinds::NUMBER && text::starts(words::text(texts, w), b"-")
}

// Whether it has a Number that begins with `-`.
pub(crate) fn has_negative(texts: &Texts<'_>, ws: &[u64]) -> bool
    requires { Holds texts.now ws.now }
    ensures { result ≡ any is_negative (tokens_of texts.now ws.now) }
{
    ws.iter().any(|w| is_negative(texts, *w))
}

// How many Numbers it has.
pub fn count_numbers(texts: &Texts<'_>, ws: &[u64]) -> usize
    requires { Holds texts.now ws.now }
    ensures { result ≡ count (is Number) (tokens_of texts.now ws.now) }
{
    ws.iter()
        .filter(|w| words::kind(**w) == kinds::NUMBER)
        .count()
}
