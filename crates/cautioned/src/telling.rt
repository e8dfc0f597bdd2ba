// The cleaning of a tape that passed all questions and was loaded, with the sets of its lines, and their bytes.
ghost use Rattle.std.specs.Prelude.{◌≡◌, ◌≤◌, ◌*◌, length};
ghost use Rattle.reference.specs.Listing.{Listing};
ghost use Rattle.reference.specs.Questions.{let_passed◌then◌, Passed, read};
ghost use Rattle.ground.specs.Rules.{rules_of};
ghost use Rattle.text.specs.Cursor.{Fits, Puts, Written};
ghost use Rattle.cautions.specs.Cautions.{finished_cautions, caution_bytes};
ghost use Rattle.clean.specs.Tabled.{TabledIf};
ghost use Rattle.tape.specs.Questions.{checked, sizes_in};
ghost use Rattle.cautioned.specs.Telling.{Cautionable, Tellable, Finishes};

use answers::Refusal;
use clean::{Tables, optimized};
use flow::NO_FORM;
use ground::rules::Rules;
use join::Workspace;
use lines::texts::Size;
use raising::Raising;
use tables::records::BLANK;
use tape::questions::Totals;
use text::Cursor;

// Puts each set in two bytes, the low byte first.
fn put_sets(sets: &[u16], out: &mut Cursor)
    requires { Fits out.old (2 * length sets.now) }
    ensures { Puts out.old (caution_bytes sets.now) out.new }
{
    for set in sets {
        out.put(&set.to_le_bytes());
    }
}

// Puts the sets at the front of the output, and answers how many bytes they are.
fn write_sets(sets: &[u16], out: &mut [u8]) -> usize
    requires { 2 * length sets.now ≤ length out.old }
    ensures { Written out.old 0 (caution_bytes sets.now) out.new result }
{
    let mut out = Cursor::new(out, 0);
    put_sets(sets, &mut out);
    out.at
}

// Asks the questions of a tape and fills the tables with its listing. The records that the lines go through stand in this frame: no tape is
// written, so they are used no more.
pub fn loaded(tape: &[u8], own: &mut Tables) -> Result<Totals, Refusal>
    ensures asked { checked result ≡ (let_passed (read tape.now) then λ lines. Passed (sizes_in lines)) }
    ensures loaded { TabledIf tape.now own.new result }
{
    let mut records = [BLANK; 256];
    own.load(tape, &mut records)
}

// Cleans the listing in the tables, and writes the sets of its finished lines. The areas are only worked in.
fn tell(
    rules: Rules,
    tape: &[u8],
    own: &mut Tables,
    loaded: Totals,
    area: &mut [u8],
    area2: &mut [u8],
    out: &mut [u8],
) -> usize
    requires { Tellable tape.now own.old loaded area.old area2.old out.old }
    ensures { (input : Listing) → read tape.now ≡ Passed input
        → Written out.old 0 (caution_bytes (finished_cautions (rules_of rules) input)) out.new result }
{
    let size = Size {
        lines: loaded.lines,
        tokens: loaded.tokens,
        text: 0,
    };
    let mut tokens2 = [0u64; 2048];
    let mut room = Workspace {
        area,
        tokens: &mut own.tokens,
        lines: &mut own.lines,
        area2,
        tokens2: &mut tokens2,
        marks: &mut own.marks,
    };
    let mut sets = [0u16; 256];
    let mut forms = [NO_FORM; 256];
    let mut parts = [None; 256];
    let mut seen = [false; 257];
    let mut expr = [0u64; 1024];
    let mut raising = Raising {
        sets: &mut sets,
        forms: &mut forms,
        parts: &mut parts,
        seen: &mut seen,
        expr: &mut expr,
    };
    let r = optimized(tape, &mut room, &mut raising, size, rules);
    write_sets(&sets[..r.size.lines], out)
}

// How many bytes of each work area are used, and are zero afterwards.
const WORK_BYTES: usize = 49152;

// The same, and wipes both work areas.
pub fn finish(
    rules: Rules,
    tape: &[u8],
    own: &mut Tables,
    loaded: Totals,
    work_a: &mut [u8],
    work_b: &mut [u8],
    out: &mut [u8],
) -> u64
    requires { Cautionable tape.now own.old loaded work_a.old work_b.old out.old }
    ensures { (input : Listing) → read tape.now ≡ Passed input
        → Finishes (caution_bytes (finished_cautions (rules_of rules) input)) work_a.old work_b.old out.old
        work_a.new work_b.new out.new result }
{
    let n = tell(
        rules,
        tape,
        own,
        loaded,
        &mut work_a[..WORK_BYTES],
        &mut work_b[..WORK_BYTES],
        out,
    );
    work_a[..WORK_BYTES].fill(0);
    work_b[..WORK_BYTES].fill(0);
    // Kept: there is no `From` from usize to u64, and `try_from` has a branch that no length takes.
    n as u64
}
