// A tape reader holds the tape and its offset. Commands and texts are read through it: the questions and the loading move one from the
// first command to the last, `command_at` and `token_text` make one at an offset.
// Kept: document 01 names the form, "A tape reader holds the tape and its offset": a small struct, and few thin functions over those on a
// plain slice and numbers. So `next` and `token` promise what `found_at` and `text_at` do.
ghost use Rattle.std.specs.Prelude.{◌≡◌, ◌+◌, ◌≤◌, length, take, drop};
ghost use Rattle.tape.specs.Commands.{form_of, found_in_by, standing_by};

use crate::commands::{Command, found_at, text_at};
use answers::Refusal;

#[derive(Clone, Copy)]
pub struct TapeReader<'a> {
    pub tape: &'a [u8],
    pub at: usize,
}

impl<'a> TapeReader<'a> {
    // A reader at the tape's first command.
    pub fn new(tape: &'a [u8]) -> TapeReader<'a>
        ensures { (result.tape ≡ tape.entry) × (result.at ≡ 0) }
    {
        TapeReader { tape, at: 0 }
    }

    // The reader, moved to another offset.
    pub fn moved(self, at: usize) -> TapeReader<'a>
        ensures { (result.tape ≡ self.entry.tape) × (result.at ≡ at) }
    {
        TapeReader {
            tape: self.tape,
            at,
        }
    }

    // What stands at the reader's offset.
    pub fn next<const BASED: bool>(self) -> Result<Command, Refusal>
        ensures { found_in_by (form_of BASED) self.entry.tape.now self.entry.at result
            ≡ standing_by (form_of BASED) self.entry.tape.now self.entry.at }
    {
        found_at::<BASED>(self.tape, self.at)
    }

    // The text of the token at the reader's offset: a part of the tape itself.
    pub fn token(self, count: usize) -> &'a [u8]
        requires { self.at + 3 + count ≤ length self.tape.now }
        ensures { result.now ≡ take count (drop (self.entry.at + 3) self.entry.tape.now) }
    {
        text_at(self.tape, self.at, count)
    }
}

// ---- over a tape and an offset

// What stands at an offset of a tape of either form.
pub fn command_at<const BASED: bool>(tape: &[u8], at: usize) -> Result<Command, Refusal>
    ensures { found_in_by (form_of BASED) tape.now at result ≡ standing_by (form_of BASED) tape.now at }
{
    TapeReader::new(tape).moved(at).next::<BASED>()
}

// The text of the token at an offset: a part of the tape itself.
pub fn token_text(tape: &[u8], at: usize, count: usize) -> &[u8]
    requires { at + 3 + count ≤ length tape.now }
    ensures { result.now ≡ take count (drop (at + 3) tape.now) }
{
    TapeReader::new(tape).moved(at).token(count)
}
