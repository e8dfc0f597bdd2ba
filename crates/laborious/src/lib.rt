// Request M-108: the tape of the most laborious listing of n lines.
#![tactic(auto)]

ghost use Rattle.std.specs.Prelude.{◌≡◌, ◌≤◌, length};
ghost use Rattle.std.proofs.Math.Option.{none};
ghost use Rattle.reference.specs.Tape.{write_line};
ghost use Rattle.text.specs.Cursor.{Written};
ghost use Rattle.answers.specs.Answers.{answer_of, Writes};
ghost use Rattle.laborious.specs.Listing.{line_of, laborious_tape, laborious_reply};

use answers::{Answer, Reason};
use text::Cursor;

// The bytes of line i in a tape.
fn line_bytes(i: u64) -> &'static [u8]
    ensures { result.now ≡ write_line (line_of i) none }
{
    match i {
        0 => b"\x02\x00\x14\x01\x00L\x16\x01\x00:",
        1 => b"\x02\x00\x11\x03\x00rbx\x16\x03\x00 = \x11\x03\x00rsi\x16\x01\x00;",
        _ if i % 2 == 0 => b"\x02\x00\x11\x03\x00rbp\x16\x03\x00 = \x11\x03\x00rbx\x16\x01\x00;",
        _ => b"\x02\x00\x11\x03\x00rbx\x16\x03\x00 = \x11\x03\x00rbp\x16\x01\x00;",
    }
}

// Writes the tape of the listing of n lines, and says how long it is.
fn write_laborious(n: u64, out: &mut [u8]) -> usize
    requires { (n ≤ 256) × (6145 ≤ length out.old) }
    ensures { Written out.old 0 (laborious_tape n) out.new result }
{
    let mut out = Cursor::new(out, 0);
    for i in 0..n {
        out.put(line_bytes(i));
    }
    out.put_byte(255);
    out.at
}

// Answers the most laborious listing of n lines: its tape at the front of the output, and its length. A refusal changes nothing.
pub fn laborious(n: u64, out: &mut [u8]) -> Answer
    ensures { Writes (laborious_reply n (length out.old)) out.old out.new (answer_of result) }
{
    if 256 < n {
        return Err(Reason::TooLong.at(0));
    }
    if out.len() < 59137 {
        return Err(Reason::TooLittleRoom.at(0));
    }
    // Kept: there is no `From` from usize to u64, and `try_from` has a branch that no length takes.
    Ok(write_laborious(n, out) as u64)
}
