// Whether a plan changes a line.
ghost use Rattle.std.specs.Prelude.{◌≡◌, List, ℕ};
ghost use Rattle.reference.specs.Rules.{volatile};
ghost use Rattle.joining.specs.Plan.{changes};
ghost use Rattle.ground.specs.Rules.{rules_of};
ghost use Rattle.plan.specs.Plans.{join_in};
ghost use Rattle.lines.specs.Texts.{Known, Lined, bare_in};

use crate::plans::Join;
use ground::rules::Rules;
use lines::texts::Texts;
use lines::words;

// Whether line k, whose word is l, is changed: it is after the line that is joined, at most line `last`, and uses the family.
// Kept: texts and tokens beside each other, here and in `build_line`, `build` and `patch_lines` of crate join: a `Listing` has the lines
// too, which the last two write. Plan and rules are apart since contracts name them so (`Plannable (rules_of rules) .. j`), and `fits` and
// `substitution` of join take the plan alone: out of a struct of both, each use would read `.plan` or `.rules`.
#[tactic(auto, using(crate::proofs::Changed::unchanged, crate::proofs::Changed::by_use))]
pub fn is_changed(
    texts: &Texts<'_>,
    tokens: &[u64],
    l: u64,
    k: usize,
    j: Join,
    rules: Rules,
) -> bool
    requires { Lined texts.now tokens.now l × Known texts.now j.family }
    ensures { (source : List ℕ) → result ≡ changes (volatile (rules_of rules)) j.line
        (join_in texts.now.tape.now texts.now.area.now source j) k
        (bare_in texts.now tokens.now l) }
{
    if k <= j.line || j.last < k {
        return false;
    }
    life::uses(texts, words::line_of(tokens, l), j.family, rules)
}
