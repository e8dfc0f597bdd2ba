// What stands at an offset of a tape. A tape has one of two forms, which the parameter BASED tells: document 01's, or by offset from the
// load address (M-110).
ghost use Rattle.std.specs.Prelude.{◌≡◌, ◌+◌, ◌^◌, ◌≤◌, ◌<◌, length, take, drop, get_or};
ghost use Rattle.reference.specs.Tape.{line_byte, marks_byte, width, header};
ghost use Rattle.tape.specs.Commands.{form_of, size_of_by, found_in_by, standing_by, ends};

use crate::little_endian::number_at;
use answers::{Reason, Refusal};

// A command: a line, with an address or without; the marks of the line begun just before; a token of a kind, whose text has `count` bytes
// and stands three bytes after the offset; the end.
// Kept: a kind is the number 0 to 7, as in a tape's byte and in a token's word (crate lines). An enum would be no plainer: the loading and
// the writing would turn it into that number, and `kind` of a word the number into it.
#[derive(Clone, Copy, Debug, PartialEq, Eq)]
pub enum Command {
    Addressed { address: u64, indent: u64 },
    Plain { indent: u64 },
    Marked { low: u64, high: u64 },
    Token { kind: u64, count: usize },
    End,
}

impl Command {
    // Whether it is the end of a tape.
    pub fn is_end(self) -> bool
        ensures { result ≡ ends self }
    {
        matches!(self, Command::End)
    }
}

// `count` bytes of the tape from `from` on: a text, a whole command, or any other part.
pub fn text_of(tape: &[u8], from: usize, count: usize) -> &[u8]
    requires { from + count ≤ length tape.now }
    ensures { result.now ≡ take count (drop from tape.now) }
{
    &tape[from..from + count]
}

// The text of the token at an offset: a part of the tape itself.
pub fn text_at(tape: &[u8], at: usize, count: usize) -> &[u8]
    requires { at + 3 + count ≤ length tape.now }
    ensures { result.now ≡ take count (drop (at + 3) tape.now) }
{
    text_of(tape, at + 3, count)
}

// ---- what the form says

// How many bytes an address has.
pub fn width_of<const BASED: bool>() -> usize
    ensures { (result ≡ width (form_of BASED)) × (result ≤ 8) }
{
    if BASED { 4 } else { 8 }
}

// How many bytes stand before the first command.
pub fn header_of<const BASED: bool>() -> usize
    ensures { result ≡ header (form_of BASED) }
{
    if BASED { 9 } else { 0 }
}

// The byte of a line with an address.
pub fn line_byte<const BASED: bool>() -> u8
    ensures { result ≡ line_byte (form_of BASED) }
{
    if BASED { 4 } else { 1 }
}

// The byte of marks.
pub fn marks_byte<const BASED: bool>() -> u8
    ensures { result ≡ marks_byte (form_of BASED) }
{
    if BASED { 5 } else { 3 }
}

// How many bytes a command has, its operand and text included.
pub fn size_of<const BASED: bool>(command: Command) -> usize
    requires { size_of_by (form_of BASED) command < 2 ^ 64 }
    ensures { result ≡ size_of_by (form_of BASED) command }
{
    let w = width_of::<BASED>();
    match command {
        Command::Addressed { .. } => 2 + w,
        Command::Plain { .. } => 2,
        Command::Marked { .. } => 1 + w + w,
        Command::Token { count, .. } => 3 + count,
        Command::End => 1,
    }
}

// ---- what stands at an offset

// The line with an address that begins at `at`.
fn addressed_at<const BASED: bool>(tape: &[u8], at: usize) -> Result<Command, Refusal>
    requires { (at < length tape.now) × (get_or tape.now at 0 ≡ line_byte (form_of BASED)) }
    ensures { found_in_by (form_of BASED) tape.now at result ≡ standing_by (form_of BASED) tape.now at }
{
    let w = width_of::<BASED>();
    if tape.len() - at < 2 + w {
        return Err(Reason::CutOff.at(at));
    }
    let address = number_at(tape, at + 1, w);
    let indent = u64::from(tape[at + (1 + w)]);
    Ok(Command::Addressed { address, indent })
}

// The line without an address that begins at `at`.
fn plain_at<const BASED: bool>(tape: &[u8], at: usize) -> Result<Command, Refusal>
    requires { (at < length tape.now) × (get_or tape.now at 0 ≡ 0x02) }
    ensures { found_in_by (form_of BASED) tape.now at result ≡ standing_by (form_of BASED) tape.now at }
{
    if tape.len() - at < 2 {
        return Err(Reason::CutOff.at(at));
    }
    let indent = u64::from(tape[at + 1]);
    Ok(Command::Plain { indent })
}

// The marks that begin at `at`.
fn marked_at<const BASED: bool>(tape: &[u8], at: usize) -> Result<Command, Refusal>
    requires { (at < length tape.now) × (get_or tape.now at 0 ≡ marks_byte (form_of BASED)) }
    ensures { found_in_by (form_of BASED) tape.now at result ≡ standing_by (form_of BASED) tape.now at }
{
    let w = width_of::<BASED>();
    if tape.len() - at < 1 + w + w {
        return Err(Reason::CutOff.at(at)); // also where marks are out of place
    }
    let low = number_at(tape, at + 1, w);
    let high = number_at(tape, at + (1 + w), w);
    Ok(Command::Marked { low, high })
}

// The token that begins at `at`.
fn token_at<const BASED: bool>(tape: &[u8], at: usize) -> Result<Command, Refusal>
    requires { (at < length tape.now) × (0x10 ≤ get_or tape.now at 0) × (get_or tape.now at 0 ≤ 0x17) }
    ensures { found_in_by (form_of BASED) tape.now at result ≡ standing_by (form_of BASED) tape.now at }
{
    let left = tape.len() - at;
    if left < 3 {
        return Err(Reason::CutOff.at(at));
    }
    let count = usize::from(u16::from_le_bytes([tape[at + 1], tape[at + 2]]));
    if left - 3 < count {
        return Err(Reason::CutOff.at(at)); // also before any line
    }
    let kind = u64::from(tape[at]) - 16;
    Ok(Command::Token { kind, count })
}

// What stands at an offset of a tape: a command whose operand and text are in it, or none, or one that is cut off.
pub fn found_at<const BASED: bool>(tape: &[u8], at: usize) -> Result<Command, Refusal>
    ensures { found_in_by (form_of BASED) tape.now at result ≡ standing_by (form_of BASED) tape.now at }
{
    if tape.len() <= at {
        return Err(Reason::NoCommand.at(at));
    }
    match tape[at] {
        2 => plain_at::<BASED>(tape, at),
        16..=23 => token_at::<BASED>(tape, at),
        255 => Ok(Command::End),
        b if b == line_byte::<BASED>() => addressed_at::<BASED>(tape, at),
        b if b == marks_byte::<BASED>() => marked_at::<BASED>(tape, at),
        _ => Err(Reason::NoCommand.at(at)),
    }
}
