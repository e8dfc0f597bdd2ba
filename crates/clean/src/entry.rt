// The questions, then the cleaning.
ghost use Rattle.std.specs.Prelude.{◌≡◌, length};
ghost use Rattle.reference.specs.Reply.{reply};
ghost use Rattle.ground.specs.Rules.{rules_of};
ghost use Rattle.clean.specs.Replies.{report_of, answer_of, summary, Cleans};

use crate::asking::{asked, outside_profile};
use crate::cleaning::{Finished, finish};
use crate::tabled::Tables;
use answers::{Reason, Refusal};
use ground::rules::Rules;
use tables::records::BLANK;

// How many bytes the output is to have at least: no new tape is longer.
pub const OUTPUT: usize = 59137;

// Cleans the listing of a tape under the settings: in at most three rounds or, where it is to settle, in as many as it takes. A refusal
// changes nothing that was lent; otherwise the output is the new tape, and the first 49,152 bytes of both work areas are zero afterwards.
pub fn clean(
    rules: Rules,
    tape: &[u8],
    work_a: &mut [u8],
    work_b: &mut [u8],
    out: &mut [u8],
) -> Result<Finished, Refusal>
    ensures cleans { Cleans (rules_of rules) tape.now work_a.old work_b.old out.old work_a.new
        work_b.new out.new (report_of result) }
    ensures result_value { answer_of result ≡ summary (reply (rules_of rules) tape.now
        (length work_a.old) (length work_b.old) (length out.old)) }
{
    asked(rules, work_a.len(), work_b.len(), out.len(), OUTPUT).map_err(|reason| reason.at(0))?;
    // The records are lent to the loading, and to the writing.
    let mut own = Tables::EMPTY;
    let mut records = [BLANK; 256];
    let loaded = own.load(tape, &mut records)?;
    match outside_profile(rules, tape, &own, loaded) {
        Some(line) => Err(Reason::OutsideProfile.at(line)),
        None => Ok(finish(
            rules,
            tape,
            &mut own,
            &mut records,
            loaded,
            work_a,
            work_b,
            out,
        )),
    }
}
