// `parse_c_number` of the Rust: a decimal or hexadecimal number, perhaps with a sign. Bytes that are no UTF-8 spell none.
ghost use Rattle.std.specs.Prelude.{◌≡◌};
ghost use Rattle.reference.specs.Options.{option_of};
ghost use Rattle.reference.specs.Numbers as reference;
ghost use Rattle.numbers.specs.Reading as reading;

use crate::wrapping::{signed, wrapping_neg};

// `u64::from_str_radix(s, 16)`, as an i64.
fn hexadecimal(s: &[u8]) -> Option<i64>
    ensures { option_of result ≡ reading.hexadecimal s.now }
{
    let text = str::from_utf8(s).ok()?;
    Some(signed(u64::from_str_radix(text, 16).ok()?))
}

// `s.parse::<i64>()`
fn decimal(s: &[u8]) -> Option<i64>
    ensures { option_of result ≡ reference.read_i64 s.now }
{
    let text = str::from_utf8(s).ok()?;
    i64::from_str_radix(text, 10).ok()
}

// The number after the first minus.
fn unnegated(s: &[u8]) -> Option<i64>
    ensures { option_of result ≡ reading.unnegated s.now }
{
    match s.strip_prefix(b"0x") {
        Some(digits) => hexadecimal(digits),
        None => decimal(s),
    }
}

pub fn parse_c_number(s: &[u8]) -> Option<i64>
    ensures { option_of result ≡ reference.parse_c_number s.now }
{
    match s.strip_prefix(b"-") {
        Some(rest) => Some(wrapping_neg(unnegated(rest)?)),
        None => unnegated(s),
    }
}
