// The entry of request M-107 for C and Rust: which start value gives this output.
ghost use Rattle.std.specs.Prelude.{◌≡◌};
ghost use Rattle.answers.specs.Answers.{in_numbers, numbers_of};
ghost use Rattle.start.specs.Start.{start_reply};

use answers::Told;

// The smallest start value of the chosen register that makes the formula of a tape return the wanted value, as `start_value` tells it.
pub fn puchkewa_start_value(tape: &[u8], chosen: &[u8], values: &[u8], wanted: u64) -> Told
    ensures { numbers_of result ≡ in_numbers (start_reply tape.now chosen.now values.now wanted) }
{
    Told::from(start::start_value(tape, chosen, values, wanted))
}
