// The tokens that an expression may have beside its Puncts: 64-bit registers, and numbers as the profile wants them.
ghost use Rattle.std.specs.Prelude.{◌≡◌, nat_eq};
ghost use Rattle.reference.specs.Control.{◌or◌};
ghost use Rattle.reference.specs.Lists.{any, count, is_some};
ghost use Rattle.reference.specs.Evaluators.{wide, is_tidy, number_of, lexemes_of};
ghost use Rattle.lines.specs.Texts.{token_of, Points};
ghost use Rattle.formula.specs.Terms.{is_plain, is_junk};
ghost use Rattle.formula.specs.Line.{has_junk, Holds};

use crate::line::Line;
use ground::kinds;
use lines::texts::Texts;
use lines::{fams, words};
use numbers::parse_c_number;

// Whether a token is a 64-bit register and no stack slot.
pub fn is_wide(texts: &Texts<'_>, w: u64) -> bool
    requires { Points texts.now w }
    ensures { result ≡ is_some (wide (token_of texts.now w)) }
{
    let Some(n) = fams::fam_of(texts, w) else {
        return false;
    };
    n.width == 64 && !text::starts(words::text(texts, w), b"var_")
}

// How often a byte stands in a text.
fn count_byte(s: &[u8], b: u8) -> usize
    ensures { result ≡ count (nat_eq b) s.now }
{
    s.iter().filter(|c| **c == b).count()
}

// Whether a number without its minus is hexadecimal, or has no zero in front, or is 0.
fn is_plain(s: &[u8]) -> bool
    ensures { result ≡ is_plain s.now }
{
    text::starts(s, b"0x") || (!text::starts(s, b"0") || text::same(s, b"0"))
}

// "no plus, at most one minus, no leading zero in decimal except `0`"
pub(crate) fn is_tidy(s: &[u8]) -> bool
    ensures { result ≡ is_tidy s.now }
{
    if text::has_byte(s, b'+') {
        return false;
    }
    if 1 < count_byte(s, b'-') {
        return false;
    }
    match s.strip_prefix(b"-") {
        Some(rest) => is_plain(rest),
        None => is_plain(s),
    }
}

// Whether a token is a number of the profile.
fn is_number(texts: &Texts<'_>, w: u64) -> bool
    requires { Points texts.now w }
    ensures { result ≡ is_some (number_of (token_of texts.now w)) }
{
    if words::kind(w) != kinds::NUMBER {
        return false;
    }
    let s = words::text(texts, w);
    is_tidy(s) && parse_c_number(s).is_some()
}

// Whether a token is worth something by itself.
fn is_term(texts: &Texts<'_>, w: u64) -> bool
    requires { Points texts.now w }
    ensures { result ≡ (is_some (wide (token_of texts.now w)) or is_some (number_of (token_of texts.now w))) }
{
    is_wide(texts, w) || is_number(texts, w)
}

// Whether a token can stand in no expression.
fn is_junk(texts: &Texts<'_>, w: u64) -> bool
    requires { Points texts.now w }
    ensures { result ≡ any is_junk (lexemes_of (token_of texts.now w)) }
{
    words::kind(w) != kinds::PUNCT && !is_term(texts, w)
}

// Whether a line has a token that can stand in no expression, wherever it stands.
pub fn has_junk(line: &Line<'_>) -> bool
    requires { Holds line.now }
    ensures { result ≡ has_junk line.now }
{
    line.words.iter().any(|w| is_junk(&line.texts, *w))
}
