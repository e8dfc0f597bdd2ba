// A plan carried out: in place where there is room behind the used marks, else by writing the whole listing anew. The lines that change
// take in the marks of the line that goes.
ghost use Rattle.std.specs.Prelude.{◌≤◌, length};
ghost use Rattle.ground.specs.Rules.{rules_of};
ghost use Rattle.join.specs.Workspaces.{SameLent, Current, Lent, Plannable, Acted, Carried};

use crate::marks::carry_marks;
use crate::patch::patch;
use crate::rebuild::rebuild;
use crate::spare::fits;
use crate::workspace::Workspace;
use ground::rules::Rules;
use lines::texts::Size;
use plan::plans::Join;

// Carries out the plan j.
pub fn apply(tape: &[u8], room: &mut Workspace<'_>, j: Join, rules: Rules, size: Size) -> Size
    requires { Plannable (rules_of rules) tape.now room.old size j × Current tape.now room.old size × Lent room.old
        × (256 ≤ length room.old.marks.now) }
    ensures acted { Acted (rules_of rules) tape.now room.old size j room.new result }
    ensures carried { Carried (rules_of rules) tape.now room.old size j room.new }
    ensures lent { SameLent room.old room.new }
{
    if fits(room, j, size) {
        patch(tape, room, j, rules, size)
    } else {
        carry_marks(tape, room, j, rules, size);
        rebuild(tape, room, j, rules, size)
    }
}
