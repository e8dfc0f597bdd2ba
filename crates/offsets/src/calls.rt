// The two calls. Every question is asked before a byte is written: a refusal changes nothing.
ghost use Rattle.std.specs.Prelude.{◌≡◌, false, ◌≤◌, length};
ghost use Rattle.answers.specs.Answers.{answer_of, Writes};
ghost use Rattle.offsets.specs.Offsets.{to_offsets, from_offsets};
ghost use Rattle.offsets.specs.Calls.{passing, reach_answer, ready_answer, Read, Ready, Fronted};

use crate::front::{asked, base_of, put_front};
use crate::reach::first_refused;
use crate::writing::put_commands;
use answers::{Answer, Reason, Refusal};
use tape::questions::check;
use text::Cursor;

// What the output has at least.
const OUTPUT_BYTES: usize = 59146;

// 18 of an accepted tape.
fn reach<const BASED: bool>(tape: &[u8], base: u64) -> Result<(), Refusal>
    requires { Read BASED tape.now }
    ensures { passing result ≡ reach_answer BASED base tape.now }
{
    match first_refused::<BASED>(tape, base) {
        Some(place) => Err(Reason::OutOfReach.at(place)),
        None => Ok(()),
    }
}

// The tape's questions, and then 18.
fn ready<const BASED: bool>(tape: &[u8], base: u64) -> Result<(), Refusal>
    ensures { passing result ≡ ready_answer BASED base tape.now }
{
    check::<BASED>(tape)?;
    reach::<BASED>(tape, base)
}

// A tape of document 01's form brought to the form by offset from `base`: the new tape stands at the front of `out`, and its length is
// answered.
pub fn to_offsets(base: u64, tape: &[u8], out: &mut [u8]) -> Answer
    ensures { Writes (to_offsets base tape.now (length out.old)) out.old out.new (answer_of result) }
{
    if out.len() < OUTPUT_BYTES {
        return Err(Reason::TooLittleRoom.at(0));
    }
    ready::<false>(tape, base)?;
    let mut out = Cursor::new(out, 0);
    put_front(base, &mut out);
    put_commands::<false>(tape, base, &mut out);
    // Kept: there is no `From` from usize to u64, and `try_from` has a branch that no length takes.
    Ok(out.at as u64)
}

// The way back of a tape whose front passed.
fn raise(tape: &[u8], out: &mut [u8]) -> Answer
    requires { Fronted tape.now × (59146 ≤ length out.old) }
    ensures { Writes (from_offsets tape.now (length out.old)) out.old out.new (answer_of result) }
{
    let base = base_of(tape);
    ready::<true>(tape, base)?;
    let mut out = Cursor::new(out, 0);
    put_commands::<true>(tape, base, &mut out);
    // Kept: there is no `From` from usize to u64, and `try_from` has a branch that no length takes.
    Ok(out.at as u64)
}

// A tape by offset brought back to document 01's form: the new tape stands at the front of `out`, and its length is answered.
pub fn from_offsets(tape: &[u8], out: &mut [u8]) -> Answer
    ensures { Writes (from_offsets tape.now (length out.old)) out.old out.new (answer_of result) }
{
    if out.len() < OUTPUT_BYTES {
        return Err(Reason::TooLittleRoom.at(0));
    }
    asked(tape).map_err(|reason| reason.at(0))?;
    raise(tape, out)
}
