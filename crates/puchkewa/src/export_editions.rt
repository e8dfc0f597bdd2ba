// The entries of request M-103 for C and Rust: between the two C editions.
ghost use Rattle.std.specs.Prelude.{length};
ghost use Rattle.answers.specs.Answers.{numbers_of, WritesTold};
ghost use Rattle.editions.specs.Conversion.{to_2018, to_2024};

use answers::Told;
use editions::{to_2018, to_2024};

// From the 2024 edition down to the 2018 edition, as `to_2018` does.
pub fn puchkewa_to_2018(tape: &[u8], out: &mut [u8]) -> Told
    ensures { WritesTold (to_2018 tape.now (length out.old)) out.old out.new (numbers_of result) }
{
    Told::from(to_2018(tape, out))
}

// From the 2018 edition up to the 2024 edition, as `to_2024` does.
pub fn puchkewa_to_2024(tape: &[u8], out: &mut [u8]) -> Told
    ensures { WritesTold (to_2024 tape.now (length out.old)) out.old out.new (numbers_of result) }
{
    Told::from(to_2024(tape, out))
}
