// The call of request M-108 for C and Rust: the tape of the most laborious listing.
ghost use Rattle.std.specs.Prelude.{length};
ghost use Rattle.answers.specs.Answers.{numbers_of, WritesTold};
ghost use Rattle.laborious.specs.Listing.{laborious_reply};

use answers::Told;

// Writes the tape of the most laborious listing of so many lines, as `laborious` does.
pub fn puchkewa_laborious(lines: u64, out: &mut [u8]) -> Told
    ensures { WritesTold (laborious_reply lines (length out.old)) out.old out.new (numbers_of result) }
{
    Told::from(laborious::laborious(lines, out))
}
