// The questions, then the sets.
ghost use Rattle.std.specs.Prelude.{◌≡◌, length};
ghost use Rattle.reference.specs.Listing.{Listing};
ghost use Rattle.reference.specs.Questions.{Passed, read};
ghost use Rattle.ground.specs.Rules.{rules_of};
ghost use Rattle.answers.specs.Answers.{answer_of, measured};
ghost use Rattle.cautioned.specs.Replies.{cautions_reply, RefusedAlike, Leaves, Tells};

use crate::telling::{finish, loaded};
use answers::{Answer, Reason};
use clean::{Tables, asked, outside_profile};
use ground::rules::Rules;

// What the output has at least: two bytes for each of 256 lines.
const OUTPUT_BYTES: usize = 512;

// The cautions of a tape's cleaning under the settings: two bytes for each finished line stand at the front of the output, the low byte
// first, and how many bytes these are is answered. A bit is a kind (`PUCHKEWA_CAUTION_..` in include/puchkewa.h). The questions are those
// of the cleaning, but that an output of 512 bytes is enough. A refusal changes nothing that was lent; otherwise the first 49,152 bytes of
// both work areas are zero afterwards.
pub fn cautions(
    rules: Rules,
    tape: &[u8],
    work_a: &mut [u8],
    work_b: &mut [u8],
    out: &mut [u8],
) -> Answer
    ensures result_value { answer_of result ≡ measured (cautions_reply (rules_of rules) tape.now
        (length work_a.old) (length work_b.old) (length out.old)) }
    ensures alike { RefusedAlike (rules_of rules) tape.now (length work_a.old) (length work_b.old) (length out.old) }
    ensures lent { Leaves (cautions_reply (rules_of rules) tape.now (length work_a.old) (length work_b.old) (length out.old))
        work_a.old work_b.old out.old work_a.new work_b.new out.new }
    ensures tells { (input : Listing) → read tape.now ≡ Passed input → Tells (rules_of rules) input (answer_of result) out.new }
{
    asked(rules, work_a.len(), work_b.len(), out.len(), OUTPUT_BYTES).map_err(|reason| reason.at(
        0,
    ))?;
    let mut own = Tables::EMPTY;
    let loaded = loaded(tape, &mut own)?;
    match outside_profile(rules, tape, &own, loaded) {
        Some(line) => Err(Reason::OutsideProfile.at(line)),
        None => Ok(finish(rules, tape, &mut own, loaded, work_a, work_b, out)),
    }
}
