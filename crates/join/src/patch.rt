// A plan carried out in place: the lines that change are written behind the used marks, and everything else stays where it is. Each line
// that changes takes in the marks of the line that goes, so that it is asked once what it uses.
ghost use Rattle.std.specs.Prelude.{◌≡◌, ◌+◌, ◌-◌, ◌≤◌, ◌<◌, ◌++◌, length, drop};
ghost use Rattle.reference.specs.Lists.{remove};
ghost use Rattle.ground.specs.Rules.{rules_of};
ghost use Rattle.build.specs.Builders as builders;
ghost use Rattle.join.specs.Patching.{need_from};
ghost use Rattle.join.specs.Builders as Builders;
ghost use Rattle.join.specs.Builders.{Spare, Patched, Carried};
ghost use Rattle.join.specs.Workspaces as Workspaces;
ghost use Rattle.join.specs.Workspaces.{SameLent, Current, Plannable, Acted, SpareFirst, SpareSecond, need};

use crate::changing::substitution;
use crate::marks::take_in;
use crate::workspace::Workspace;
use build::Builder;
use ground::rules::Rules;
use lines::marks::Marks;
use lines::texts::{Size, Texts};
use lines::words;
use plan::changing::is_changed;
use plan::plans::Join;
use text::copy;

// Line `gone` goes: the words behind it move up by one, and the last place keeps what it had.
fn remove_word(lines: &mut [u64], gone: usize)
    requires { gone < length lines.old }
    ensures { lines.new ≡ remove gone lines.old ++ drop (length lines.old - 1) lines.old }
{
    // Kept: a loop from line `gone` on. Of `copy_within`, and of a loop over the part from there on, in which both places are literals, the
    // compiler makes a call of `memmove`, and the archive for C calls no more of C than include/puchkewa.h says.
    for k in gone..lines.len() - 1 {
        lines[k] = lines[k + 1];
    }
}

// Writes the lines that change behind the used marks, but in the second set; their words take the places of the old ones, and the word of
// the line that is joined goes. Its marks are handed on to them.
#[tactic(auto, using(crate::proofs::Carrying::origin_small))]
fn patch_lines(
    texts: &Texts<'_>,
    tokens: &[u64],
    lines: &mut [u64],
    marks: &mut [Marks],
    j: Join,
    rules: Rules,
    second: &mut Builder<'_>,
)
    requires { Builders.Plannable (rules_of rules) texts.now tokens.now lines.old j
        × (length texts.now.area.now ≡ second.old.size.text)
        × (length tokens.now ≡ second.old.size.tokens)
        × Spare second.old (need_from tokens.now lines.old j (j.line + 1))
        × (256 ≤ length marks.old) }
    ensures patched { Patched (rules_of rules) texts.now tokens.now lines.old j second.old.size
        second.new lines.new }
    ensures carried { Carried (rules_of rules) texts.now tokens.now lines.old j marks.old marks.new }
    ensures lent { builders.SameLent second.old second.new }
{
    let source = lines[j.line];
    let given = marks[words::origin(source)];
    for k in j.line + 1..j.last + 1 {
        let l = lines[k];
        if is_changed(texts, tokens, l, k, j, rules) {
            take_in(words::origin(l), given, marks);
            lines[k] = second.rewrite_line(
                texts,
                tokens,
                source,
                l,
                substitution(j),
                rules.edition,
            );
        }
    }
    remove_word(lines, j.line);
    second.size.lines = lines.len() - 1;
}

// Carries out the plan j in place.
// Kept: beside `rebuild`, which begins the second set with nothing and asks other room of it: one function for both would take the size to
// begin with, and `patch_lines` or `build` as a closure, and its clauses would have to be of that closure's.
pub fn patch(tape: &[u8], room: &mut Workspace<'_>, j: Join, rules: Rules, size: Size) -> Size
    requires { Plannable (rules_of rules) tape.now room.old size j × Current tape.now room.old size
        × SpareFirst room.old size (need room.old size j) × SpareSecond room.old size (need room.old size j)
        × (256 ≤ length room.old.marks.now) }
    ensures acted { Acted (rules_of rules) tape.now room.old size j room.new result }
    ensures carried { Workspaces.Carried (rules_of rules) tape.now room.old size j room.new }
    ensures lent { SameLent room.old room.new }
{
    // Lent on one by one: it was tried without, and the borrow checker has no rule yet for a second slice that is read through a `room`
    // that is lent to be written, so no proof could be begun.
    let area = &mut *room.area;
    let tokens = &mut *room.tokens;
    let mut second = Builder {
        area: room.area2,
        tokens: room.tokens2,
        size,
    };
    patch_lines(
        &Texts {
            tape,
            area: &area[..size.text],
        },
        &tokens[..size.tokens],
        &mut room.lines[..size.lines],
        room.marks,
        j,
        rules,
        &mut second,
    );
    let after = second.size;
    copy(
        &second.area[size.text..after.text],
        &mut area[size.text..after.text],
    );
    copy(
        &second.tokens[size.tokens..after.tokens],
        &mut tokens[size.tokens..after.tokens],
    );
    after
}
