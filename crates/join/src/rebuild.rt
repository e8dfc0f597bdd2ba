// A plan carried out by writing the whole listing anew: it is built in the second set, line after line, and brought back to the first.
ghost use Rattle.std.specs.Prelude.{◌≡◌, ◌≤◌, length};
ghost use Rattle.ground.specs.Rules.{rules_of};
ghost use Rattle.build.specs.Builders as builders;
ghost use Rattle.join.specs.Building.{nothing_used};
ghost use Rattle.join.specs.Builders as Builders;
ghost use Rattle.join.specs.Builders.{Placeable, Placed, Rebuilt};
ghost use Rattle.join.specs.Workspaces.{SameLent, Current, Lent, Plannable, Acted};

use crate::changing::substitution;
use crate::workspace::Workspace;
use build::Builder;
use ground::rules::Rules;
use lines::texts::{Size, Texts};
use plan::changing::is_changed;
use plan::plans::Join;
use text::copy;

// Appends line k, whose word is l, to the second set: with the right side of the line `source` for each token of the family, or as it is;
// answers its new word.
fn build_line(
    texts: &Texts<'_>,
    tokens: &[u64],
    source: u64,
    l: u64,
    k: usize,
    j: Join,
    rules: Rules,
    second: &mut Builder<'_>,
) -> u64
    requires { Placeable (rules_of rules) texts.now tokens.now source j k l second.old }
    ensures placed { Placed (rules_of rules) texts.now tokens.now source j k l second.old
        second.new result }
    ensures lent { builders.SameLent second.old second.new }
{
    if is_changed(texts, tokens, l, k, j, rules) {
        second.rewrite_line(texts, tokens, source, l, substitution(j), rules.edition)
    } else {
        second.keep_line(texts, tokens, l)
    }
}

// Builds the new listing in the second set; its line words take the place of the old ones.
fn build(
    texts: &Texts<'_>,
    tokens: &[u64],
    lines: &mut [u64],
    j: Join,
    rules: Rules,
    second: &mut Builder<'_>,
)
    requires { Builders.Plannable (rules_of rules) texts.now tokens.now lines.old j
        × (second.old.size ≡ nothing_used) × (49152 ≤ length second.old.area.now) × (1024 ≤ length second.old.tokens.now) }
    ensures rebuilt { Rebuilt (rules_of rules) texts.now tokens.now lines.old j second.new lines.new }
    ensures lent { builders.SameLent second.old second.new }
{
    let gone = j.line;
    let source = lines[gone];
    for k in 0..lines.len() {
        if k != gone {
            let l = build_line(texts, tokens, source, lines[k], k, j, rules, second);
            lines[second.size.lines] = l;
            second.size.lines += 1;
        }
    }
}

// Carries out the plan j: the new listing is built in the second set and copied back, with nothing between its texts and its words.
pub fn rebuild(tape: &[u8], room: &mut Workspace<'_>, j: Join, rules: Rules, size: Size) -> Size
    requires { Plannable (rules_of rules) tape.now room.old size j × Current tape.now room.old size × Lent room.old }
    ensures acted { Acted (rules_of rules) tape.now room.old size j room.new result }
    ensures marks { room.new.marks.now ≡ room.old.marks.now }
    ensures lent { SameLent room.old room.new }
{
    // Lent on one by one, as in `patch`.
    let area = &mut *room.area;
    let tokens = &mut *room.tokens;
    let mut second = Builder {
        area: room.area2,
        tokens: room.tokens2,
        // Kept: the three zeros: of the literal a proof has the fields at once (`nothing_used`), of `Size::default()` a promise.
        size: Size {
            lines: 0,
            tokens: 0,
            text: 0,
        },
    };
    build(
        &Texts {
            tape,
            area: &area[..size.text],
        },
        &tokens[..size.tokens],
        &mut room.lines[..size.lines],
        j,
        rules,
        &mut second,
    );
    let after = second.size;
    copy(&second.area[..after.text], &mut area[..after.text]);
    copy(&second.tokens[..after.tokens], &mut tokens[..after.tokens]);
    after
}
