// Numbers as text: -9 to 9 in decimal, the others in lower-case hexadecimal after `0x`.
ghost use Rattle.std.specs.Prelude.{◌≡◌, ◌%◌, ◌≤◌, length};
ghost use Rattle.reference.specs.Numbers.{digit_byte, show_natural, show};
ghost use Rattle.text.specs.Cursor.{Fits, Puts};
ghost use Rattle.numbers.specs.Writing.{hexadecimal};

use text::Cursor;

// The last hexadecimal digit.
// Kept: by hand: std's `char::from_digit` answers an `Option` of a `char`, where a byte is wanted of a number that always is a digit.
#[tactic(auto, using(laws::proofs::Std::tests_of_std))]
pub fn last_digit(v: u64) -> u8
    ensures { result ≡ digit_byte (v % 16) }
{
    // Kept: a cast: a remainder of 16 fits in a byte, and `u8::try_from` is no plainer, since it asks what to do where it does not.
    let d = (v % 16) as u8;
    if d < 10 { b'0' + d } else { b'a' + (d - 10) }
}

// Puts the hexadecimal digits.
// Kept: by hand: std's `LowerHex` writes into a `fmt::Formatter`. `Cursor` would need a `fmt::Write` of its own, whose `write_str` answers
// a `Result`, where there is always room.
pub fn put_digits(v: u64, out: &mut Cursor)
    requires { Fits out.old (length (hexadecimal v)) }
    ensures { Puts out.old (hexadecimal v) out.new }
{
    if 16 <= v {
        put_digits(v / 16, out);
    }
    out.put_byte(last_digit(v));
}

fn put_natural(v: u64, out: &mut Cursor)
    requires { Fits out.old (length (show_natural v)) }
    ensures { Puts out.old (show_natural v) out.new }
{
    if 10 <= v {
        out.put(b"0x");
    }
    put_digits(v, out);
}

// Puts the number. No number takes more than 19 bytes.
pub fn put_number(v: i64, out: &mut Cursor)
    requires { Fits out.old 19 }
    ensures { Puts out.old (show v) out.new }
{
    if v < 0 {
        out.put_byte(b'-');
    }
    put_natural(v.unsigned_abs(), out);
}
