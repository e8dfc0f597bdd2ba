// Signed sums, differences and negations that wrap at 64 bits: std's, under the definitions' words.
// Kept: a function for each of std's. Document 01 names signed values with supplied wrapping operations, and the negation as a helper
// (docs/DECISIONS.md, Forms that document 01 names). `signed` and the other two promise the definitions' word of std's answer, once, as
// text's `same` does. Tried: with std's two in `sum_of` of crate build the search gives up at both, and the answers would cite the laws.
ghost use Rattle.std.specs.Prelude.{◌≡◌, ◌+ℤ◌, ◌-ℤ◌, neg_ℤ};
ghost use Rattle.reference.specs.Numbers.{as_i64, wrap};

// 2^63, and the largest number of 64 bits.
pub const HALF: u64 = 9223372036854775808;

pub const MOST: u64 = u64::MAX;

// The signed number of 64 bits: `b as i64` of the Rust.
pub fn signed(b: u64) -> i64
    ensures { result ≡ as_i64 b }
{
    b.cast_signed()
}

// a + b, wrapped to 64 bits.
pub fn wrapping_add(a: i64, b: i64) -> i64
    ensures { result ≡ wrap (a +ℤ b) }
{
    a.wrapping_add(b)
}

// a - b, wrapped to 64 bits.
pub fn wrapping_sub(a: i64, b: i64) -> i64
    ensures { result ≡ wrap (a -ℤ b) }
{
    a.wrapping_sub(b)
}

// -v, wrapped to 64 bits: the lowest value is its own negation.
pub fn wrapping_neg(v: i64) -> i64
    ensures { result ≡ wrap (neg_ℤ v) }
{
    v.wrapping_neg()
}
