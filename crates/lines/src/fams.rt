// The families of a listing's tokens (`fam_of` of the Rust), and what a line does with one.
ghost use Rattle.std.specs.Prelude.{◌≡◌, ◌<◌, length, get_or};
ghost use Rattle.reference.specs.Options.{option_of};
ghost use Rattle.reference.specs.Control.{◌and◌};
ghost use Rattle.reference.specs.Lists.{any, count, position};
ghost use Rattle.reference.specs.Text.{◌≟◌, has};
ghost use Rattle.reference.specs.Names.{family, fam_of, of_family};
ghost use Rattle.reference.specs.Rules.{volatile};
ghost use Rattle.reference.specs.Shapes.{is_written};
ghost use Rattle.reference.specs.Join.{is_narrow, written_from};
ghost use Rattle.ground.specs.Rules.{rules_of};
ghost use Rattle.lines.specs.Shapes.{expr_words, Expression};
ghost use Rattle.lines.specs.Fams.{fam_number, Names};
ghost use Rattle.lines.specs.Texts.{Holds, Known, Points, fam_text, text_of, token_of, tokens_of};

use crate::shapes::Expr;
use crate::texts::Texts;
use crate::{codes, shapes, words};
use ground::kinds;
use ground::rules::Rules;
use names::Spelled;

// A family in one number: below 8 a row of the table of names, else the token word of its name.
// Kept: an enum of the two would be no plainer. A word of a text that is not empty is at least 8, so the number needs no tag, and two
// families of which one is a row are compared as numbers (`same_family`), where an enum would be matched in pairs.
pub type Fam = u64;

// A family, a width and a lowest bit.
#[derive(Clone, Copy)]
pub struct Named {
    pub family: Fam,
    pub width: u64,
    pub lowest: u64,
}

// The family, the width and the lowest bit of a token's text, read from its bytes.
fn spelled(texts: &Texts<'_>, w: u64) -> Option<Named>
    requires { Points texts.now w }
    ensures { Names texts.now.tape.now texts.now.area.now (family (text_of texts.now w)) result }
{
    match names::family(words::text(texts, w))? {
        Spelled::Row { row, width, lowest } => Some(Named {
            family: row,
            width,
            lowest,
        }),
        Spelled::Front { length, width } => Some(Named {
            family: words::first_bytes(w, length),
            width,
            lowest: 0,
        }),
    }
}

// The family, the width and the lowest bit of a token's text, whatever its kind.
pub fn name_of(texts: &Texts<'_>, w: u64) -> Option<Named>
    requires { Points texts.now w }
    ensures { Names texts.now.tape.now texts.now.area.now (family (text_of texts.now w)) result }
{
    let Some(c) = words::code(w) else {
        return spelled(texts, w);
    };
    let family = if c < 36 {
        c / 4 - 1
    } else if c % 4 == 0 {
        w
    } else {
        words::without_last(w)
    };
    Some(Named {
        family,
        width: codes::width_of(c),
        lowest: 0,
    })
}

// The family, the width and the lowest bit of a token: of a Register alone.
#[tactic(auto, using(crate::proofs::fams::Families::families))]
pub fn fam_of(texts: &Texts<'_>, w: u64) -> Option<Named>
    requires { Points texts.now w }
    ensures { Names texts.now.tape.now texts.now.area.now (fam_of (token_of texts.now w)) result }
{
    if words::kind(w) != kinds::REGISTER {
        return None;
    }
    name_of(texts, w)
}

#[tactic(auto, using(crate::proofs::fams::Families::families, crate::proofs::fams::Families::same_with_row))]
pub fn same_family(texts: &Texts<'_>, f: Fam, g: Fam) -> bool
    requires { Known texts.now f × Known texts.now g }
    ensures { result ≡ (fam_text texts.now f ≟ fam_text texts.now g) }
{
    if f < 8 || g < 8 {
        return f == g;
    }
    codes::same_text(texts, f, g)
}

// Whether a token is a Register of the family. A code tells a row at once.
// Kept: a `match`, here and in `is_narrow_of`. `is_some_and` was tried, and the proof did not close: nothing is known there of what its
// closure, which holds the texts, returned.
#[tactic(auto, using(crate::proofs::fams::Families::families, crate::proofs::codes::Coding::of_coded, crate::proofs::codes::Coding::says))]
pub fn is_of(texts: &Texts<'_>, w: u64, f: Fam) -> bool
    requires { Points texts.now w × Known texts.now f }
    ensures { result ≡ of_family (fam_text texts.now f) (token_of texts.now w) }
{
    if words::kind(w) != kinds::REGISTER {
        return false;
    }
    match words::code(w) {
        Some(c) if f < 8 => c / 4 == f + 1,
        _ => match fam_of(texts, w) {
            Some(n) => same_family(texts, n.family, f),
            None => false,
        },
    }
}

// Whether a token is a Register of the family, of less than 32 bits.
#[tactic(auto, using(crate::proofs::fams::Families::families))]
pub(crate) fn is_narrow_of(texts: &Texts<'_>, w: u64, f: Fam) -> bool
    requires { Points texts.now w × Known texts.now f }
    ensures { result ≡ is_narrow (fam_text texts.now f) (token_of texts.now w) }
{
    match fam_of(texts, w) {
        Some(n) => n.width < 32 && same_family(texts, n.family, f),
        None => false,
    }
}

// The number by which the lists of what a call overwrites name the family.
#[tactic(auto, using(crate::proofs::fams::Families::families))]
fn listed_number(texts: &Texts<'_>, f: Fam) -> Option<u64>
    requires { Known texts.now f }
    ensures { option_of result ≡ fam_number texts.now.tape.now texts.now.area.now f }
{
    if f < 8 {
        return Some(f);
    }
    names::number_of(words::text(texts, f))
}

// Whether a call overwrites the family.
pub fn is_volatile(texts: &Texts<'_>, f: Fam, rules: Rules) -> bool
    requires { Known texts.now f }
    ensures { result ≡ has (volatile (rules_of rules)) (fam_text texts.now f) }
{
    let Some(n) = listed_number(texts, f) else {
        return false;
    };
    names::overwritten(n, rules.convention)
}

// ---- in a line

// Whether the right side x of a line has a token of the family.
pub fn mentions(texts: &Texts<'_>, line: &[u64], x: Expr, f: Fam) -> bool
    requires { Holds texts.now line.now × Expression line.now x × Known texts.now f }
    ensures { result ≡ any (of_family (fam_text texts.now f))
        (tokens_of texts.now (expr_words line.now x)) }
{
    (0..x.count).any(|k| is_of(texts, shapes::expr_word(line, x, k), f))
}

// How many tokens of the family a line has.
pub fn count_of(texts: &Texts<'_>, line: &[u64], f: Fam) -> usize
    requires { Holds texts.now line.now × Known texts.now f }
    ensures { result ≡ count (of_family (fam_text texts.now f)) (tokens_of texts.now line.now) }
{
    line.iter().filter(|w| is_of(texts, **w, f)).count()
}

// The place of the first token of the family.
pub fn first_of(texts: &Texts<'_>, line: &[u64], f: Fam) -> Option<usize>
    requires { Holds texts.now line.now × Known texts.now f }
    ensures { option_of result ≡ position (of_family (fam_text texts.now f)) (tokens_of texts.now line.now) }
{
    line.iter().position(|w| is_of(texts, *w, f))
}

// Whether a token of the family has less than 32 bits.
pub fn has_narrow(texts: &Texts<'_>, line: &[u64], f: Fam) -> bool
    requires { Holds texts.now line.now × Known texts.now f }
    ensures { result ≡ any (is_narrow (fam_text texts.now f)) (tokens_of texts.now line.now) }
{
    line.iter().any(|w| is_narrow_of(texts, *w, f))
}

#[tactic(auto, using(laws::proofs::Scans::tests))]
fn writes_at(texts: &Texts<'_>, line: &[u64], k: usize, f: Fam) -> bool
    requires { Holds texts.now line.now × Known texts.now f × (k < length line.now) }
    ensures { result ≡ (of_family (fam_text texts.now f) (token_of texts.now (get_or line.now k 0)) and
        is_written (tokens_of texts.now line.now) k) }
{
    is_of(texts, line[k], f) && shapes::is_written(texts, line, k)
}

// Whether a token of the family is the target of an assignment.
pub fn writes(texts: &Texts<'_>, line: &[u64], f: Fam) -> bool
    requires { Holds texts.now line.now × Known texts.now f }
    ensures { result ≡ written_from (fam_text texts.now f) (tokens_of texts.now line.now) }
{
    (0..line.len()).any(|k| writes_at(texts, line, k, f))
}
