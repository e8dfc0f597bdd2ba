// Numbers by the 2024 edition of C: a base, and a row of digits in which one single quote may stand between two.
ghost use Rattle.std.specs.Prelude.{◌≡◌, ◌≤◌};
ghost use Rattle.reference.specs.Options.{option_of};
ghost use Rattle.reference.specs.Control.{◌or◌};
ghost use Rattle.reference.specs.Text.{bytes, starts_with};
ghost use Rattle.reference.specs.Numbers as reference;
ghost use Rattle.numbers.specs.Reading as reading;
ghost use Rattle.numbers.specs.Reading.{at_most};
ghost use Rattle.numbers.specs.Constants as constants;
ghost use Rattle.numbers.specs.Constants.{PastQuote};

use crate::wrapping::{HALF, MOST, signed, wrapping_neg};
use text::starts;

// Whether a prefix stands first, its letter small or large.
#[tactic(auto, using(laws::proofs::Std::tests_of_std))]
fn begins_with(s: &[u8], small: &[u8], large: &[u8]) -> bool
    ensures { result ≡ (starts_with s.now small.now or starts_with s.now large.now) }
{
    starts(s, small) || starts(s, large)
}

pub fn begins_binary(s: &[u8]) -> bool
    ensures { result ≡ (starts_with s.now (bytes "0b") or starts_with s.now (bytes "0B")) }
{
    begins_with(s, b"0b", b"0B")
}

// What stands behind a digit, without the quote in front.
fn past_quote(s: &[u8]) -> &[u8]
    ensures { PastQuote s.now result.now }
{
    match s {
        [b'\'', rest @ ..] => rest,
        _ => s,
    }
}

// What a byte is worth as a digit to the base.
// Kept: `to_digit(36)` and 99, as the definition has them. std's `to_digit(radix)` asks `2 ≤ radix` and `radix ≤ 36`, so that this function
// and `with_digit` would ask both, and `row`, which crate editions calls, the first anew; and it takes a `u32`, so a cast of the base.
fn digit(b: u8, radix: u64) -> Option<u64>
    ensures { option_of result ≡ reference.to_digit radix b }
{
    let d = u64::from(char::from(b).to_digit(36).unwrap_or(99));
    if d < radix { Some(d) } else { None }
}

// The number with one digit more, if `b` is a digit and the number then is at most `most`.
fn with_digit(v: u64, b: u8, radix: u64, most: u64) -> Option<u64>
    ensures { option_of result ≡ at_most most (reading.with_digit radix v b) }
{
    let d = digit(b, radix)?;
    let n = v.checked_mul(radix)?.checked_add(d)?;
    if n <= most { Some(n) } else { None }
}

// One digit or more, of a number that is at most `most`. Behind a quote a digit must stand.
// Kept: the base and `most` as two numbers: a struct of both would be built at each of the five calls that name them, and the contract
// would say `base.radix` and `base.most` where it says `radix` and `most`.
pub fn row(s: &[u8], radix: u64, most: u64) -> Option<u64>
    requires { radix ≤ 36 }
    ensures { option_of result ≡ at_most most (constants.row radix s.now) }
{
    let mut v = 0;
    let mut rest = s;
    // Kept: a turn takes a digit and perhaps a quote, so an iterator of bytes would have to look ahead.
    while let [b, behind @ ..] = rest {
        v = with_digit(v, *b, radix, most)?;
        if behind.is_empty() {
            return Some(v);
        }
        rest = past_quote(behind);
    }
    None
}

// A row of a number that is at most `most`, as an i64.
fn sized(s: &[u8], radix: u64, most: u64) -> Option<i64>
    requires { radix ≤ 36 }
    ensures { option_of result ≡ constants.sized radix most s.now }
{
    Some(signed(row(s, radix, most)?))
}

// A constant without a sign.
// Kept: `&s[2..]` behind a test: there are two prefixes for each base, so that `strip_prefix` would be called twice for it.
fn constant(s: &[u8]) -> Option<i64>
    ensures { option_of result ≡ reference.read_constant s.now }
{
    if begins_with(s, b"0x", b"0X") {
        sized(&s[2..], 16, MOST)
    } else if begins_binary(s) {
        sized(&s[2..], 2, MOST)
    } else if starts(s, b"0") {
        sized(s, 8, MOST)
    } else {
        sized(s, 10, HALF - 1)
    }
}

// A number by the 2024 edition.
pub fn parse_2024(s: &[u8]) -> Option<i64>
    ensures { option_of result ≡ reference.parse_2024 s.now }
{
    match s.strip_prefix(b"-") {
        Some(rest) => Some(wrapping_neg(constant(rest)?)),
        None => constant(s),
    }
}
