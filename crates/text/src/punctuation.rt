// Whether one of a row of literals is a text, begins it, ends it or stands in it: the rows that the Rust asks for.
#![tactic(auto, using(laws::proofs::Std::tests_of_std, crate::proofs::Operators::first_byte))]

ghost use Rattle.std.specs.Borrow.{Bor};
ghost use Rattle.std.specs.Prelude.{◌≡◌};
ghost use Rattle.reference.specs.Control.{◌or◌};
ghost use Rattle.reference.specs.Lists.{any};
ghost use Rattle.reference.specs.Text.{Text, ◌≟◌, starts_with, ends_with, contains, bytes, trim_start};
ghost use Rattle.reference.specs.Join.{starts_with_operator};
ghost use Rattle.text.specs.Punctuation.{updates};

use crate::compare::{ends, has_byte, same, starts};
use crate::trimming::trim_start;

// ---- whole texts

// The names of a call's result.
pub fn is_result_name(s: &[u8]) -> bool
    ensures { result ≡ ((s.now ≟ bytes "rax") or (s.now ≟ bytes "eax")) }
{
    same(s, b"rax") || same(s, b"eax")
}

// ---- how a text begins

// Whether one of these texts begins s.
fn begins_with_one(texts: &[&[u8]], s: &[u8]) -> bool
    ensures { result ≡ any (λ (t : Bor Text). starts_with s.now t.now) texts.now }
{
    texts.iter().any(|t| starts(s, t))
}

// The operators that write what stands before them, but ` = `.
const UPDATES: [&[u8]; 11] = [
    b" += ", b" -= ", b" &= ", b" |= ", b" ^= ", b" *= ", b" /= ", b" <<= ", b" >>= ", b"++", b"--",
];

pub fn begins_update(s: &[u8]) -> bool
    ensures { result ≡ any (starts_with s.now) updates }
{
    begins_with_one(&UPDATES, s)
}

// The bytes with which an operator begins.
fn is_operator_byte(b: u8) -> bool
    ensures { result ≡ contains (bytes "+-*/&|^<>=") b }
{
    has_byte(b"+-*/&|^<>=", b)
}

// Whether an operator stands first, or behind spaces.
pub fn begins_operator(s: &[u8]) -> bool
    ensures { result ≡ starts_with_operator (trim_start s.now) }
{
    match trim_start(s) {
        [b, ..] => is_operator_byte(*b),
        [] => false,
    }
}

// Whether a value that stands before this text has a delimiter after it.
pub fn delimits_after(s: &[u8]) -> bool
    ensures { result ≡ (starts_with s.now (bytes ")") or starts_with s.now (bytes ",") or starts_with s.now (bytes ";")) }
{
    starts(s, b")") || starts(s, b",") || starts(s, b";")
}

// ---- how a text ends

// Whether a value that stands after this text has a delimiter before it.
pub fn delimits_before(s: &[u8]) -> bool
    ensures { result ≡ (ends_with s.now (bytes "(") or ends_with s.now (bytes ", ") or ends_with s.now (bytes " = ")) }
{
    ends(s, b"(") || ends(s, b", ") || ends(s, b" = ")
}

// ---- what a text holds

pub fn has_brace(s: &[u8]) -> bool
    ensures { result ≡ (contains s.now 123 or contains s.now 125) }
{
    has_byte(s, b'{') || has_byte(s, b'}')
}
