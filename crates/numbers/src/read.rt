// Numbers by an edition: 0 as the Rust reads them, another by the 2024 edition of C.
ghost use Rattle.std.specs.Prelude.{◌≡◌};
ghost use Rattle.reference.specs.Options.{option_of};
ghost use Rattle.reference.specs.Numbers as reference;

use crate::constant::parse_2024;
use crate::parse::parse_c_number;

// Kept: an edition is a byte, the one of the C interface that `Rules` of crate lines holds; the definition reads by each of the 256, not by
// two.
pub fn read_number(edition: u8, s: &[u8]) -> Option<i64>
    ensures { option_of result ≡ reference.read_number edition s.now }
{
    if edition == 0 {
        parse_c_number(s)
    } else {
        parse_2024(s)
    }
}
