// The copy, and the call that cleans it and tells what its one line came into.
// Kept: the lent slices are parameters of their own, as `clean` has three of these five. What the public `came_into` takes stays; a struct
// would be made in it for `flags_of` alone, and taken apart there to call `clean`: no plainer.
ghost use Rattle.std.specs.Prelude.{◌≤◌, length};
ghost use Rattle.answers.specs.Answers.{answer_of, Writes};
ghost use Rattle.ground.specs.Rules.{rules_of};
ghost use Rattle.tape.specs.Questions.{AcceptedTape};
ghost use Rattle.sources.specs.Only.{only_reply};
ghost use Rattle.sources.specs.Calls.{FlagsCleaned, lent_as, CameInto};

use crate::copying::put_commands;
use crate::walking::walk;
use answers::{Answer, Reason, Refusal};
use clean::{OUTPUT, asked, clean};
use ground::rules::Rules;
use tape::check;

// What the copy has at least: the bytes of the longest tape that is accepted.
const COPY_BYTES: usize = 34561;

// The copy, as `only` has it; its length is answered as a `usize`.
fn copy_only(k: usize, tape: &[u8], out: &mut [u8]) -> Result<usize, Refusal>
    ensures { Writes (only_reply k tape.now (length out.old)) out.old out.new (answer_of result) }
{
    if out.len() < COPY_BYTES {
        return Err(Reason::TooLittleRoom.at(0));
    }
    check::<false>(tape)?;
    Ok(put_commands(tape, k, out))
}

// The copy of a tape in which line k alone has an address, and no 03 stands: it stands at the front of `out`, and its length is answered.
// Where there is no line k, no line has an address. A refusal changes nothing. (For a user of the library; here `came_into` makes the
// copy.)
pub fn only(k: usize, tape: &[u8], out: &mut [u8]) -> Answer
    ensures { Writes (only_reply k tape.now (length out.old)) out.old out.new (answer_of result) }
{
    let n = copy_only(k, tape, out)?;
    // Kept: there is no `From` from usize to u64, and `try_from` has a branch that no length takes.
    Ok(n as u64)
}

// Cleans an accepted tape, and writes a flag for each finished line to the front of `flags`: 1 where it has marks, else 0.
fn flags_of(
    rules: Rules,
    tape: &[u8],
    work_a: &mut [u8],
    work_b: &mut [u8],
    out: &mut [u8],
    flags: &mut [u8],
) -> Answer
    requires { AcceptedTape tape.now × (256 ≤ length flags.old) }
    ensures { FlagsCleaned (rules_of rules) tape.now work_a.old work_b.old out.old flags.old work_a.new
        work_b.new out.new flags.new (answer_of result) }
{
    clean(rules, tape, work_a, work_b, out)?;
    // Kept: there is no `From` from usize to u64, and `try_from` has a branch that no length takes.
    Ok(walk(out, flags) as u64)
}

// Which finished lines line k of a tape comes into: `flags` begins with a byte for each finished line, 1 where line k comes into it, else
// 0, and how many lines are finished is answered. The copy is made in `copy`, which has 34,561 bytes or more, and cleaned into `out`;
// `flags` has 256 or more. The call is refused as the cleaning of the tape is. Then nothing lent has changed, but that a listing outside
// the profile leaves the copy.
pub fn came_into(
    rules: Rules,
    tape: &[u8],
    k: usize,
    copy: &mut [u8],
    work_a: &mut [u8],
    work_b: &mut [u8],
    out: &mut [u8],
    flags: &mut [u8],
) -> Answer
    ensures { CameInto (rules_of rules) k tape.now (lent_as copy.old work_a.old work_b.old out.old flags.old)
        (lent_as copy.new work_a.new work_b.new out.new flags.new) (answer_of result) }
{
    asked(rules, work_a.len(), work_b.len(), out.len(), OUTPUT).map_err(|reason| reason.at(0))?;
    if flags.len() < 256 {
        return Err(Reason::TooLittleRoom.at(0));
    }
    let n = copy_only(k, tape, copy)?;
    flags_of(rules, &copy[..n], work_a, work_b, out, flags)
}
