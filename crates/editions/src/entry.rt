// The two calls of request M-103: a tape in, its listing by the other edition out. A refusal changes nothing that was lent; otherwise the
// output is the new tape, and past that as before. The answer is the new tape's length.
ghost use Rattle.std.specs.Prelude.{◌≤◌, length};
ghost use Rattle.answers.specs.Answers.{answer_of, Writes};
ghost use Rattle.tape.specs.Questions.{AcceptedTape};
ghost use Rattle.editions.specs.Conversion.{to_2018, to_2024};

use crate::questions::first_place;
use crate::writing::lower;
use answers::{Answer, Reason};
use text::copy;

// Once the tape is read.
// Kept: that the tape is accepted stands as a clause, here and of `first_place` and `lower`, as in the other crates that go on with an
// accepted tape (clean, sources, start, tables): a struct that says it would be crate tape's, made by `check` beside the totals, and is no
// plainer for this crate alone.
fn lowered(tape: &[u8], out: &mut [u8]) -> Answer
    requires { AcceptedTape tape.now × (length tape.now ≤ length out.old) }
    ensures { Writes (to_2018 tape.now (length out.old)) out.old out.new (answer_of result) }
{
    match first_place::<false>(tape) {
        Some(place) => Err(Reason::UnreadNumber.at(place)),
        // Kept: there is no `From` from usize to u64, and `try_from` has a branch that no length takes.
        None => Ok(lower(tape, out) as u64),
    }
}

fn raised(tape: &[u8], out: &mut [u8]) -> Answer
    requires { AcceptedTape tape.now × (length tape.now ≤ length out.old) }
    ensures { Writes (to_2024 tape.now (length out.old)) out.old out.new (answer_of result) }
{
    match first_place::<true>(tape) {
        Some(place) => Err(Reason::NewKeyword.at(place)),
        None => {
            copy(tape, &mut out[..tape.len()]);
            // Kept: there is no `From` from usize to u64, and `try_from` has a branch that no length takes.
            Ok(tape.len() as u64)
        }
    }
}

// From the 2024 edition down to the 2018 edition.
// Kept: the two calls share four lines: with the direction as a const parameter a third function would have these lines, and each of the
// two would be a call of it: no plainer.
pub fn to_2018(tape: &[u8], out: &mut [u8]) -> Answer
    ensures { Writes (to_2018 tape.now (length out.old)) out.old out.new (answer_of result) }
{
    if out.len() < tape.len() {
        return Err(Reason::TooLittleRoom.at(0));
    }
    tape::check::<false>(tape)?;
    lowered(tape, out)
}

// From the 2018 edition up to the 2024 edition.
pub fn to_2024(tape: &[u8], out: &mut [u8]) -> Answer
    ensures { Writes (to_2024 tape.now (length out.old)) out.old out.new (answer_of result) }
{
    if out.len() < tape.len() {
        return Err(Reason::TooLittleRoom.at(0));
    }
    tape::check::<false>(tape)?;
    raised(tape, out)
}
