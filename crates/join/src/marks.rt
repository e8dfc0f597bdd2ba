// The marks of lines, kept by the number of the input line that a line was: the lowest and the highest address of the line and of all
// that was joined into it. A line that is joined into others hands its own on to each; a removal moves none.
ghost use Rattle.std.specs.Prelude.{◌≡◌, ◌≤◌, ◌<◌, min, max, ℕ, List, length, get_or, set};
ghost use Rattle.reference.specs.Rules.{volatile};
ghost use Rattle.joining.specs.Plan.{changes};
ghost use Rattle.ground.specs.Rules.{rules_of};
ghost use Rattle.lines.specs.Fams.{Known};
ghost use Rattle.lines.specs.Marks.{highs_of, lows_of};
ghost use Rattle.build.specs.State.{used};
ghost use Rattle.plan.specs.Plans.{join_in};
ghost use Rattle.join.specs.Workspaces.{Current, Plannable, Carried, SameListing, bare_at};

use crate::workspace::Workspace;
use ground::rules::Rules;
use lines::marks::Marks;
use lines::texts::Size;
use lines::words;
use plan::changing::is_changed;
use plan::plans::Join;

// Line `at` of the input takes in other marks.
pub(crate) fn take_in(at: usize, other: Marks, marks: &mut [Marks])
    requires { at < length marks.old }
    ensures lows_after { lows_of marks.new ≡ set (lows_of marks.old) at (min (get_or (lows_of marks.old) at 0) other.low) }
    ensures highs_after { highs_of marks.new ≡ set (highs_of marks.old) at (max (get_or (highs_of marks.old) at 0) other.high) }
{
    marks[at] = marks[at].joined(other);
}

// Whether the plan j changes line k of the listing.
fn is_target<'a>(
    tape: &'a [u8],
    room: &'a Workspace<'_>,
    k: usize,
    j: Join,
    rules: Rules,
    size: Size,
) -> bool
    requires { Current tape.now room.now size × (k < size.lines) × Known tape.now (used room.now.area.now size) j.family }
    ensures { (source : List ℕ) → result ≡ changes (volatile (rules_of rules)) j.line
        (join_in tape.now (used room.now.area.now size) source j) k (bare_at tape.now room.now size k) }
{
    let listing = room.listing(tape, size);
    is_changed(
        &listing.texts,
        listing.tokens,
        listing.lines[k],
        k,
        j,
        rules,
    )
}

// Each line that the plan j changes takes in the marks of the line that is joined.
#[tactic(auto, using(crate::proofs::Carrying::origin_small))]
pub fn carry_marks(tape: &[u8], room: &mut Workspace<'_>, j: Join, rules: Rules, size: Size)
    requires { Plannable (rules_of rules) tape.now room.old size j × Current tape.now room.old size
        × (256 ≤ length room.old.marks.now) }
    ensures carried { Carried (rules_of rules) tape.now room.old size j room.new }
    ensures rest { SameListing room.old room.new }
{
    let given = room.marks[words::origin(room.lines[j.line])];
    for k in j.line + 1..j.last + 1 {
        if is_target(tape, room, k, j, rules, size) {
            take_in(words::origin(room.lines[k]), given, room.marks);
        }
    }
}
