// The text of a Number going down, put into a lent slice.
ghost use Rattle.std.specs.Prelude.{◌≡◌, false, [], ◌∷◌, ◌++◌, ◌+◌, length};
ghost use Rattle.reference.specs.Text.{bytes};
ghost use Rattle.numbers.specs.Writing.{hexadecimal};
ghost use Rattle.text.specs.Cursor.{Fits, Puts};
ghost use Rattle.editions.specs.Numbers.{without_quotes, down_constant, down_text, has_no_older};
ghost use Rattle.editions.specs.Lowering.{Ready};

use numbers::{MOST, begins_binary, put_digits, row};
use text::Cursor;

const QUOTE: u8 = b'\'';

// Puts a byte that is no quote.
fn put_byte(b: u8, out: &mut Cursor)
    requires { Fits out.old 1 }
    ensures { Puts out.old (without_quotes (b ∷ [])) out.new }
{
    if b != QUOTE {
        out.put_byte(b);
    }
}

// Puts a text without its quotes.
fn put_unquoted(s: &[u8], out: &mut Cursor)
    requires { Fits out.old (length s.now) }
    ensures { Puts out.old (without_quotes s.now) out.new }
{
    for &b in s {
        put_byte(b, out);
    }
}

// Puts a number in hexadecimal behind `0x`, without leading zeros.
fn put_hexadecimal(v: u64, out: &mut Cursor)
    requires { Fits out.old (2 + length (hexadecimal v)) }
    ensures { Puts out.old (bytes "0x" ++ hexadecimal v) out.new }
{
    out.put(b"0x");
    put_digits(v, out);
}

// Puts a Number without its minus, gone down. One that begins as a binary constant or holds a quote is known to be read.
fn put_constant(s: &[u8], out: &mut Cursor)
    requires { Ready s.now × Fits out.old (length s.now) }
    ensures { Puts out.old (down_constant s.now) out.new }
{
    // Kept: the two bytes are tested, then cut off: they are `0b` or `0B`, and `strip_prefix` takes one prefix.
    if !begins_binary(s) {
        put_unquoted(s, out);
    } else if let Some(n) = row(&s[2..], 2, MOST) {
        put_hexadecimal(n, out);
    }
}

// Puts a Number gone down, which does not earn 13.
pub fn put_down(s: &[u8], out: &mut Cursor)
    requires { (has_no_older s.now ≡ false) × Fits out.old (length s.now) }
    ensures { Puts out.old (down_text s.now) out.new }
{
    match s.strip_prefix(b"-") {
        Some(rest) => {
            out.put_byte(b'-');
            put_constant(rest, out);
        }
        None => put_constant(s, out),
    }
}
