// Lines that are not looked into: they may read and write every register and all memory.
ghost use Rattle.std.specs.Prelude.{◌≡◌, ◌<◌, length, get_or};
ghost use Rattle.reference.specs.Options.{option_of};
ghost use Rattle.reference.specs.Lists.{any, position, windows};
ghost use Rattle.reference.specs.Listing.{token};
ghost use Rattle.reference.specs.Claim.{sum};
ghost use Rattle.cautions.specs.Texts.{holds, star_after, marks, is_strange, calls_register, is_opaque};
ghost use Rattle.flow.specs.Opaque.{is_odd_byte, is_odd_text, star_at, changes_oddly};
ghost use Rattle.lines.specs.Texts.{Holds, Points, token_of, tokens_of};

use crate::{frames, marks};
use ground::kinds;
use lines::texts::Texts;
use lines::words;

// The kind of a Prefix, which the cleaner does not ask about.
const PREFIX: u64 = 7;

// Whether p stands somewhere in s.
pub fn holds(p: &[u8], s: &[u8]) -> bool
    ensures { result ≡ holds p.now s.now }
{
    for k in 0..s.len() {
        let rest = &s[k..];
        if text::starts(rest, p) {
            return true;
        }
    }
    p.is_empty()
}

// The byte at a place, and 0 behind the end.
fn byte_or_zero(s: &[u8], k: usize) -> u8
    ensures { result ≡ get_or s.now k 0 }
{
    if k < s.len() { s[k] } else { 0 }
}

// Whether the byte c, between p and n, is a `*` that has no space on one of its sides.
#[tactic(auto, using(laws::proofs::Std::tests_of_std), unfolding(crate::specs::Opaque::star_at))]
fn star_at(p: u8, c: u8, n: u8) -> bool
    ensures { result ≡ star_at p c n }
{
    c == b'*' && !(p == b' ' && n == b' ')
}

// Whether a text has such a `*`.
fn has_star(s: &[u8]) -> bool
    ensures { result ≡ star_after 0 s.now }
{
    let mut p = 0;
    for k in 0..s.len() {
        if star_at(p, s[k], byte_or_zero(s, k + 1)) {
            return true;
        }
        p = s[k];
    }
    false
}

// The bytes of which each operator that is not looked into has one.
#[tactic(auto, using(laws::proofs::Std::tests_of_std), unfolding(crate::specs::Opaque::is_odd_byte))]
fn is_odd_byte(b: u8) -> bool
    ensures { result ≡ is_odd_byte b }
{
    b == b'&' || b == b'|' || b == b'*'
}

fn has_odd_byte(s: &[u8]) -> bool
    ensures { result ≡ any is_odd_byte s.now }
{
    s.iter().any(|b| is_odd_byte(*b))
}

// Whether a text has such an operator, by three scans.
#[tactic(auto, using(laws::proofs::Scans::tests), unfolding(crate::specs::Opaque::is_odd_text))]
fn has_odd_operator(s: &[u8]) -> bool
    ensures { result ≡ is_odd_text s.now }
{
    holds(b"&&", s) || holds(b"||", s) || has_star(s)
}

// Whether the text of a Punct is of an operator that is not looked into. Most texts have none of its bytes.
#[tactic(auto, using(crate::proofs::Strange::odd))]
fn is_odd_text(s: &[u8]) -> bool
    ensures { result ≡ is_odd_text s.now }
{
    has_odd_byte(s) && has_odd_operator(s)
}

// Whether a token with this kind and text is not looked into.
#[tactic(auto, using(crate::proofs::Strange::strange))]
fn is_strange_text(kind: u64, s: &[u8]) -> bool
    ensures { result ≡ is_strange (token kind s.now) }
{
    if kind == kinds::KEYWORD {
        return text::starts(s, b"_");
    }
    if kind == kinds::PLAIN || kind == PREFIX {
        return !text::same(s, b" ");
    }
    if kind == kinds::SYMBOL {
        return text::same(s, b"sizeof"); // looks like a call, and is none
    }
    kind == kinds::PUNCT && is_odd_text(s)
}

fn is_strange(texts: &Texts<'_>, w: u64) -> bool
    requires { Points texts.now w }
    ensures { result ≡ is_strange (token_of texts.now w) }
{
    is_strange_text(words::kind(w), words::text(texts, w))
}

// Whether a token is a register behind which a bracket opens.
#[tactic(auto, using(lines::proofs::shapes::Tests::token_tests), unfolding(cautions::specs::Texts::calls_register))]
fn calls_register(texts: &Texts<'_>, w: u64, next: u64) -> bool
    requires { Points texts.now next }
    ensures { result ≡ calls_register (token_of texts.now w, token_of texts.now next) }
{
    words::kind(w) == kinds::REGISTER
        && words::kind(next) == kinds::PUNCT
        && text::starts(words::text(texts, next), b"(")
}

fn has_strange(texts: &Texts<'_>, line: &[u64]) -> bool
    requires { Holds texts.now line.now }
    ensures { result ≡ any is_strange (tokens_of texts.now line.now) }
{
    line.iter().any(|w| is_strange(texts, *w))
}

// The place of the first such register.
fn register_call_at(texts: &Texts<'_>, line: &[u64]) -> Option<usize>
    requires { Holds texts.now line.now }
    ensures { option_of result ≡ position calls_register (windows (tokens_of texts.now line.now)) }
{
    line.windows(2)
        .position(|pair| calls_register(texts, pair[0], pair[1]))
}

fn has_register_call(texts: &Texts<'_>, line: &[u64]) -> bool
    requires { Holds texts.now line.now }
    ensures { result ≡ any calls_register (windows (tokens_of texts.now line.now)) }
{
    register_call_at(texts, line).is_some()
}

// How many changes a line makes.
fn count_marks(texts: &Texts<'_>, line: &[u64]) -> usize
    requires { Holds texts.now line.now × (length line.now < 65536) }
    ensures { result ≡ sum marks (tokens_of texts.now line.now) }
{
    let mut n = 0;
    for w in line {
        n += marks::marks_of(texts, *w);
    }
    n
}

// Whether it makes more than one, or one inside brackets, or has a comma outside of them.
#[tactic(auto, using(laws::proofs::Std::tests_of_std), unfolding(crate::specs::Opaque::changes_oddly))]
fn changes_oddly(texts: &Texts<'_>, line: &[u64]) -> bool
    requires { Holds texts.now line.now × (length line.now < 65536) }
    ensures { result ≡ changes_oddly (tokens_of texts.now line.now) }
{
    let n = count_marks(texts, line);
    let f = frames::frame_of(texts, line);
    1 < n || f.marks < n || f.comma
}

// Whether a line is not looked into.
#[tactic(auto, using(laws::proofs::Scans::tests), unfolding(cautions::specs::Texts::is_opaque, crate::specs::Opaque::changes_oddly))]
pub fn is_opaque(texts: &Texts<'_>, line: &[u64]) -> bool
    requires { Holds texts.now line.now × (length line.now < 65536) }
    ensures { result ≡ is_opaque (tokens_of texts.now line.now) }
{
    has_strange(texts, line) || has_register_call(texts, line) || changes_oddly(texts, line)
}
