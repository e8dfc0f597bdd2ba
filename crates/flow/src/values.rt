// What a line does to a register family's value: whether it overwrites it in any case, and whether it reads it.
ghost use Rattle.std.specs.Prelude.{◌≡◌};
ghost use Rattle.reference.specs.Control.{◌and◌};
ghost use Rattle.reference.specs.Lists.{is_some};
ghost use Rattle.reference.specs.Rules.{volatile};
ghost use Rattle.reference.specs.Shapes.{call_in};
ghost use Rattle.reference.specs.Text.{has};
ghost use Rattle.cautions.specs.Forms.{reads, ends};
ghost use Rattle.flow.specs.LineForms.{Formed};
ghost use Rattle.flow.specs.Values.{overwrites, guards};
ghost use Rattle.ground.specs.Rules.{rules_of};
ghost use Rattle.lines.specs.Texts.{Holds, Known, fam_text, tokens_of};

use crate::lineforms::{Form, LineForm};
use ground::rules::Rules;
use lines::fams::{self, Fam};
use lines::shapes;
use lines::texts::Texts;

// Whether a line reads the family.
#[tactic(auto, using(crate::proofs::Touched::reads_by))]
pub fn reads(texts: &Texts<'_>, line: &[u64], f: Fam, rules: Rules) -> bool
    requires { Holds texts.now line.now × Known texts.now f }
    ensures { result ≡ reads (fam_text texts.now f) (tokens_of texts.now line.now) }
{
    life::uses(texts, line, f, rules)
}

// Whether a call of the line overwrites the family.
#[tactic(auto, using(laws::proofs::Scans::tests))]
fn calls_over(texts: &Texts<'_>, line: &[u64], f: Fam, rules: Rules) -> bool
    requires { Holds texts.now line.now × Known texts.now f }
    ensures { result ≡ (has (volatile (rules_of rules)) (fam_text texts.now f) and is_some (call_in (tokens_of texts.now line.now))) }
{
    fams::is_volatile(texts, f, rules) && shapes::has_call(texts, line)
}

// Whether a line overwrites the family, itself or by a call.
#[tactic(auto, using(crate::proofs::Touched::overwrites_all))]
fn overwrites(texts: &Texts<'_>, line: &[u64], f: Fam, rules: Rules) -> bool
    requires { Holds texts.now line.now × Known texts.now f }
    ensures { result ≡ overwrites (fam_text texts.now f) (volatile (rules_of rules)) (tokens_of texts.now line.now) }
{
    if life::kills(texts, line, f, rules) {
        return true;
    }
    calls_over(texts, line, f, rules)
}

// Whether what a line with this form does hangs on a condition in front.
#[tactic(auto, using(crate::proofs::Touched::unguarded))]
pub fn is_guarded(form: Form) -> bool
    ensures { result ≡ guards form }
{
    matches!(form, Form::Guarded | Form::IfReturn | Form::ElseIf)
}

// Whether a line, of which the table has r, overwrites the family in any case.
#[tactic(auto, using(crate::proofs::Touched::ended))]
pub fn ends(texts: &Texts<'_>, line: &[u64], r: LineForm, f: Fam, rules: Rules) -> bool
    requires { Holds texts.now line.now × Known texts.now f × Formed (tokens_of texts.now line.now) r }
    ensures { result ≡ ends (fam_text texts.now f) (volatile (rules_of rules)) (tokens_of texts.now line.now) }
{
    if is_guarded(r.form) {
        return false;
    }
    overwrites(texts, line, f, rules)
}
