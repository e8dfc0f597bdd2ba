// The cleaning of a tape that passed all questions.
ghost use Rattle.std.specs.Prelude.{◌≡◌, true};
ghost use Rattle.reference.specs.Listing as reference;
ghost use Rattle.reference.specs.Questions.{Passed, read};
ghost use Rattle.ground.specs.Rules.{rules_of};
ghost use Rattle.join.specs.Contents.{contents};
ghost use Rattle.join.specs.Workspaces.{SameLent};
ghost use Rattle.raising.specs.Tables as tables;
ghost use Rattle.raising.specs.Tables.{is_on, Room};
ghost use Rattle.rounds.specs.Cautions.{CautionsKept};
ghost use Rattle.rounds.specs.Runs.{Runnable, Ran};
ghost use Rattle.clean.specs.Replies.{cleaned};
ghost use Rattle.clean.specs.Cleaning.{Writable, ReplyWritten, Cleanable, Finishes};

use crate::tabled::Tables;
use ground::rules::Rules;
use join::Workspace;
use lines::texts::{Listing, Size, Texts};
use raising::Raising;
use rounds::{Outcome, Tally, optimize};
use tables::records::LineRecord;
use tape::questions::Totals;

// What a cleaning did: the output's length, what is told of the rounds, the lines removed and the results cut.
#[derive(Clone, Copy)]
pub struct Finished {
    pub length: usize,
    pub tally: Tally,
    pub removed: u64,
    pub cut: u64,
}

// Cleans a listing that was loaded into the workspace, in which the texts are all in the tape; the tables of cautions, where they are not
// empty, have its cautions afterwards.
pub fn optimized(
    tape: &[u8],
    room: &mut Workspace<'_>,
    raising: &mut Raising<'_>,
    size: Size,
    rules: Rules,
) -> Outcome
    requires { Runnable tape.now room.old size × (is_on raising.old ≡ true → Room raising.old) }
    ensures ran { Ran (rules_of rules) (contents tape.now room.old size) (contents tape.now room.new result.size) result }
    ensures cautioned { CautionsKept (rules_of rules) (contents tape.now room.old size) (contents tape.now room.new result.size)
        raising.old raising.new }
    ensures lent { SameLent room.old room.new }
    ensures lent_raising { tables.SameLent raising.old raising.new }
{
    let mut labels = [0usize; 256];
    let mut slots = [0u8; 49152];
    let mut slot_words = [0u64; 1024];
    optimize(
        tape,
        room,
        raising,
        &mut labels,
        &mut slots,
        &mut slot_words,
        size,
        rules,
    )
}

// Cleans a tape that passed all questions and was loaded, into the output. The areas are only worked in, and no cautions are kept.
fn written(
    rules: Rules,
    tape: &[u8],
    own: &mut Tables,
    records: &mut [LineRecord; 256],
    loaded: Totals,
    area: &mut [u8],
    area2: &mut [u8],
    out: &mut [u8],
) -> Finished
    requires { Writable tape.now own.old loaded area.old area2.old out.old }
    ensures { (input : reference.Listing) → read tape.now ≡ Passed input
        → ReplyWritten (cleaned (rules_of rules) tape.now input) out.old out.new result }
{
    let size = Size {
        lines: loaded.lines,
        tokens: loaded.tokens,
        text: 0,
    };
    let mut tokens2 = [0u64; 2048];
    let mut room = Workspace {
        area,
        tokens: &mut own.tokens,
        lines: &mut own.lines,
        area2,
        tokens2: &mut tokens2,
        marks: &mut own.marks,
    };
    let mut raising = Raising {
        sets: &mut [],
        forms: &mut [],
        parts: &mut [],
        seen: &mut [],
        expr: &mut [],
    };
    let r = optimized(tape, &mut room, &mut raising, size, rules);
    let Size {
        lines: n,
        tokens: used,
        text,
    } = r.size;
    let listing = Listing {
        texts: Texts {
            tape,
            area: &area[..text],
        },
        tokens: &own.tokens[..used],
        lines: &own.lines[..n],
    };
    let length = tables::write(&listing, &own.addresses, &own.marks, records, out);
    Finished {
        length,
        tally: r.tally,
        removed: r.removed,
        cut: r.cut,
    }
}

// How many bytes of each work area are used, and are zero afterwards.
const WORK_BYTES: usize = 49152;

// Cleans a tape that passed all questions and was loaded, and wipes both work areas.
pub fn finish(
    rules: Rules,
    tape: &[u8],
    own: &mut Tables,
    records: &mut [LineRecord; 256],
    loaded: Totals,
    work_a: &mut [u8],
    work_b: &mut [u8],
    out: &mut [u8],
) -> Finished
    requires { Cleanable tape.now own.old loaded work_a.old work_b.old out.old }
    ensures { (input : reference.Listing) → read tape.now ≡ Passed input → Finishes (cleaned (rules_of rules) tape.now input)
        work_a.old work_b.old out.old work_a.new work_b.new out.new result }
{
    let r = written(
        rules,
        tape,
        own,
        records,
        loaded,
        &mut work_a[..WORK_BYTES],
        &mut work_b[..WORK_BYTES],
        out,
    );
    work_a[..WORK_BYTES].fill(0);
    work_b[..WORK_BYTES].fill(0);
    r
}
