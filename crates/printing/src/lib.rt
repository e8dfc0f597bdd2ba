// Decimal numbers put into a lent slice.
#![tactic(auto)]

ghost use Rattle.text.specs.Cursor.{Fits, Puts};
ghost use Rattle.printing.specs.Decimals.{decimal};

use text::Cursor;

// Puts the decimal digits of n.
pub fn put_decimal(n: u64, out: &mut Cursor)
    requires { Fits out.old 20 }
    ensures { Puts out.old (decimal n) out.new }
{
    let mut digits = [0u8; 20];
    let k = io::decimal(n, &mut digits);
    out.put(&digits[..k]);
}
