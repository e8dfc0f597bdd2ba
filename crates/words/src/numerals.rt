// Digits that stand for a number, decimal or hexadecimal.
ghost use Rattle.std.specs.Prelude.{◌≡◌, ◌≤◌};
ghost use Rattle.reference.specs.Options.{option_of};
ghost use Rattle.words.specs.Numerals.{digit_in, number_in, base_in};
ghost use Rattle.words.specs.Numerals.{unsigned_in, magnitude_in, negated, negative_in, integer_in};

// What a byte is worth as a digit to the base.
fn digit(b: u8, base: u64) -> Option<u64>
    requires { base ≤ 16 }
    ensures { option_of result ≡ digit_in base b }
{
    // Kept: 16, and a test behind it: `to_digit` takes its base as a `u32` from 2 on, and `number_in`, which is public, promises an answer
    // for every `u64` up to 16.
    let d = u64::from(char::from(b).to_digit(16)?);
    if d < base { Some(d) } else { None }
}

// The number that a word of 1 to 16 digits stands for.
pub fn number_in(word: &[u8], base: u64) -> Option<u64>
    requires { base ≤ 16 }
    ensures { option_of result ≡ number_in base word.now }
{
    if 16 < word.len() {
        None
    } else {
        unsigned_in(word, base)
    }
}

// A base: hexadecimal, with 0x in front or without.
pub fn base_in(word: &[u8]) -> Option<u64>
    ensures { option_of result ≡ base_in word.now }
{
    match word.strip_prefix(b"0x") {
        Some(digits) => number_in(digits, 16),
        None => number_in(word, 16),
    }
}

// The number below 2^64 that a word of digits stands for.
// Kept: digit by digit: std's `from_str_radix` takes a + in front, which the definition does not, a `str` for the digits and a `u32` for
// the base: with a test, a conversion and a cast beside it, it is no plainer.
fn unsigned_in(word: &[u8], base: u64) -> Option<u64>
    requires { base ≤ 16 }
    ensures { option_of result ≡ unsigned_in base word.now }
{
    if word.is_empty() {
        return None;
    }
    let mut v: u64 = 0;
    for b in word {
        let d = digit(*b, base)?;
        v = v.checked_mul(base)?.checked_add(d)?;
    }
    Some(v)
}

// The number below 2^64 that a word stands for: decimal, or hexadecimal behind 0x.
fn magnitude_in(word: &[u8]) -> Option<u64>
    ensures { option_of result ≡ magnitude_in word.now }
{
    match word.strip_prefix(b"0x") {
        Some(digits) => unsigned_in(digits, 16),
        None => unsigned_in(word, 10),
    }
}

// A number behind a minus, as two's complement has it.
fn negated(v: u64) -> Option<u64>
    ensures { option_of result ≡ negated v }
{
    if 9223372036854775808 < v {
        None
    } else {
        Some(v.wrapping_neg())
    }
}

// The number that stands behind a minus, as two's complement has it.
fn negative_in(word: &[u8]) -> Option<u64>
    ensures { option_of result ≡ negative_in word.now }
{
    negated(magnitude_in(word)?)
}

// What a 64-bit register can hold: 0 to 2^64 - 1, or -1 to -2^63.
pub fn integer_in(word: &[u8]) -> Option<u64>
    ensures { option_of result ≡ integer_in word.now }
{
    match word.strip_prefix(b"-") {
        Some(digits) => negative_in(digits),
        None => magnitude_in(word),
    }
}
