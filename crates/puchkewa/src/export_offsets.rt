// Tapes by offset from the load address: the entries for C and Rust (include/puchkewa.h).
ghost use Rattle.std.specs.Prelude.{length};
ghost use Rattle.answers.specs.Answers.{numbers_of, WritesTold};
ghost use Rattle.offsets.specs.Offsets.{to_offsets, from_offsets};

use answers::Told;
use offsets::{from_offsets, to_offsets};

// A tape of document 01's form brought to the form by offset from `base`, as `to_offsets` does.
pub fn puchkewa_to_offsets(base: u64, tape: &[u8], out: &mut [u8]) -> Told
    ensures { WritesTold (to_offsets base tape.now (length out.old)) out.old out.new (numbers_of result) }
{
    Told::from(to_offsets(base, tape, out))
}

// A tape by offset brought back to document 01's form, as `from_offsets` does.
pub fn puchkewa_from_offsets(tape: &[u8], out: &mut [u8]) -> Told
    ensures { WritesTold (from_offsets tape.now (length out.old)) out.old out.new (numbers_of result) }
{
    Told::from(from_offsets(tape, out))
}
