// How a line touches a family: `touch` of the Rust.
ghost use Rattle.std.specs.Prelude.{◌≡◌};
ghost use Rattle.reference.specs.Rules.{volatile};
ghost use Rattle.reference.specs.Life.{kills, touch_of, is_use, is_kill};
ghost use Rattle.ground.specs.Rules.{rules_of};
ghost use Rattle.lines.specs.Shapes.{Expression};
ghost use Rattle.life.specs.Touches.{touched, kills_by};
ghost use Rattle.lines.specs.Texts.{Holds, Known, fam_text, tokens_of};

use ground::rules::Rules;
use lines::fams::Fam;
use lines::shapes::Expr;
use lines::texts::Texts;
use lines::{fams, shapes};

// Nothing; an overwriting of 32 bits or more that does not read the family, or one by a call; or a use: so many tokens of the family.
// Kept: three cases of one answer, as the definitions have them (`Touch`): `Option` around two of them only makes each pattern longer.
#[derive(Clone, Copy)]
pub enum Touched {
    Nothing,
    Kill,
    Use(usize),
}

// Whether a line that assigns the right side x to its first token gives the family a new value: at width 32 or more, and not read in x.
fn assigns_anew(texts: &Texts<'_>, line: &[u64], x: Expr, f: Fam) -> bool
    requires { Holds texts.now line.now × Expression line.now x × Known texts.now f }
    ensures { result ≡ kills_by texts.now.tape.now texts.now.area.now line.now x (fam_text texts.now f) }
{
    let Some(n) = fams::name_of(texts, line[0]) else {
        return false;
    };
    if n.width < 32 {
        return false;
    }
    fams::same_family(texts, n.family, f) && !fams::mentions(texts, line, x, f)
}

// Whether a line overwrites the family whole: at width 32 or more, and without reading it. The first token tells most lines apart.
fn overwrites(texts: &Texts<'_>, line: &[u64], f: Fam) -> bool
    requires { Holds texts.now line.now × Known texts.now f }
    ensures { result ≡ kills (tokens_of texts.now line.now) (fam_text texts.now f) }
{
    let [w, ..] = line else {
        return false;
    };
    if !fams::is_of(texts, *w, f) {
        return false;
    }
    let Some(x) = shapes::assignment(texts, line) else {
        return false;
    };
    assigns_anew(texts, line, x, f)
}

// How a line touches the family.
pub fn touch(texts: &Texts<'_>, line: &[u64], f: Fam, rules: Rules) -> Touched
    requires { Holds texts.now line.now × Known texts.now f }
    ensures { touched result ≡ touch_of (tokens_of texts.now line.now)
        (fam_text texts.now f) (volatile (rules_of rules)) }
{
    if overwrites(texts, line, f) {
        return Touched::Kill;
    }
    let uses = fams::count_of(texts, line, f);
    if 0 < uses {
        return Touched::Use(uses);
    }
    if shapes::has_call(texts, line) && fams::is_volatile(texts, f, rules) {
        return Touched::Kill; // by the call
    }
    Touched::Nothing
}

// Whether a line uses the family, other than to overwrite it.
pub fn uses(texts: &Texts<'_>, line: &[u64], f: Fam, rules: Rules) -> bool
    requires { Holds texts.now line.now × Known texts.now f }
    ensures { result ≡ is_use (touch_of (tokens_of texts.now line.now)
        (fam_text texts.now f) (volatile (rules_of rules))) }
{
    matches!(touch(texts, line, f, rules), Touched::Use(_))
}

// Whether a line overwrites the family, itself or by a call.
pub fn kills(texts: &Texts<'_>, line: &[u64], f: Fam, rules: Rules) -> bool
    requires { Holds texts.now line.now × Known texts.now f }
    ensures { result ≡ is_kill (touch_of (tokens_of texts.now line.now)
        (fam_text texts.now f) (volatile (rules_of rules))) }
{
    matches!(touch(texts, line, f, rules), Touched::Kill)
}
