// The families that a call overwrites: three constant lists of family numbers, chosen by convention.
ghost use Rattle.std.specs.Prelude.{◌≡◌};
ghost use Rattle.reference.specs.Options.{option_of};
ghost use Rattle.reference.specs.Text.{has};
ghost use Rattle.reference.specs.Names.{volatile_of};
ghost use Rattle.names.specs.Volatile.{name_numbered, number_of};

use crate::rows::column_in;

// The families of the numbers 8 to 11; 0 to 7 are the rows of the table, and no other family has a number.
const NEW: [[u8; 3]; 4] = [*b"r8\0", *b"r9\0", *b"r10", *b"r11"];

// What a call overwrites under conventions 0 and 1, and under any other.
const VOLATILE_0: [u64; 3] = [0, 2, 3];

const VOLATILE_1: [u64; 9] = [0, 2, 3, 4, 5, 8, 9, 10, 11];

const VOLATILE_2: [u64; 7] = [0, 2, 3, 8, 9, 10, 11];

// The number of a family that has no row.
pub fn number_of(s: &[u8]) -> Option<u64>
    ensures { option_of result ≡ number_of s.now }
{
    // Kept: a cast: `position` counts in `usize`, and 64 bits hold it; `u64::try_from` is no plainer, since it asks what to do where they
    // do not.
    Some(8 + column_in(s, &NEW)? as u64)
}

// Whether a call overwrites the family of this number.
// Kept: the convention is a byte, as the C interface hands it over. `volatile_of` answers for every number, as the last arm here does; an
// enum would want a second definition beside it, and one that turns the byte into the enum.
pub fn overwritten(number: u64, convention: u8) -> bool
    ensures { result ≡ has (volatile_of convention) (name_numbered number) }
{
    match convention {
        0 => VOLATILE_0.contains(&number),
        1 => VOLATILE_1.contains(&number),
        _ => VOLATILE_2.contains(&number),
    }
}
