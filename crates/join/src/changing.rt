// What a plan puts in the place of its register.
ghost use Rattle.std.specs.Prelude.{◌≡◌};
ghost use Rattle.join.specs.Building.{substitution_of};

use build::merge::Substitution;
use plan::plans::Join;

// What the plan j puts in the place of each token of its family.
pub fn substitution(j: Join) -> Substitution
    ensures { result ≡ substitution_of j }
{
    Substitution {
        family: j.family,
        expr: j.expr,
        brackets: j.brackets,
    }
}
