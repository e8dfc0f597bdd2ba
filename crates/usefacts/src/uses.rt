// An expression that is put into a line, and how wide the register was that it comes for: as it was assigned, and as it is used.
#![tactic(auto, using(laws::proofs::Std::tests_of_std))]

ghost use Rattle.std.specs.Prelude.{ℕ, ◌≡◌, ◌<◌, ◌≤◌, eqb, length};
ghost use Rattle.reference.specs.Text.{bytes, starts_with};
ghost use Rattle.reference.specs.Join.{use_width, use_lowest, text_before, text_after};
ghost use Rattle.cautions.specs.Uses.{widths, beside_narrower, number_at, beside_number};
ghost use Rattle.cautions.specs.Values.{is_whole};
ghost use Rattle.lines.specs.Texts.{Holds, Known, fam_text, tokens_of};
ghost use Rattle.usefacts.specs.Uses.{Ready, asked, line_in, has_narrow_rest, number_before, number_behind};
ghost use Rattle.ground.specs.Rules.{rules_of};

use crate::{rest, sides, widths};
use ground::kinds;
use ground::rules::Rules;
use lines::fams::{self, Fam, Named};
use lines::texts::Texts;
use lines::words;

// The register's name as it was assigned, the words of the expression and of the line before the join; whether the expression is 0 or 1,
// whether it gets brackets where no delimiters spare them, and whether what the line does hangs on a condition in front.
#[derive(Clone, Copy)]
pub struct Joining<'a> {
    pub texts: Texts<'a>,
    pub rules: Rules,
    pub name: Named,
    pub expr: &'a [u64],
    pub line: &'a [u64],
    pub truth: bool,
    pub bracketed: bool,
    pub guarded: bool,
}

// The width and the lowest bit of the token at u.
#[tactic(auto, using(crate::proofs::Using::named_here))]
fn use_width(texts: &Texts<'_>, line: &[u64], u: usize) -> u64
    requires { Holds texts.now line.now × (u < length line.now) }
    ensures { result ≡ use_width (tokens_of texts.now line.now) u }
{
    match fams::name_of(texts, line[u]) {
        Some(n) => n.width,
        None => 64,
    }
}

#[tactic(auto, using(crate::proofs::Using::named_here))]
pub(crate) fn use_lowest(texts: &Texts<'_>, line: &[u64], u: usize) -> u64
    requires { Holds texts.now line.now × (u < length line.now) }
    ensures { result ≡ use_lowest (tokens_of texts.now line.now) u }
{
    match fams::name_of(texts, line[u]) {
        Some(n) => n.lowest,
        None => 0,
    }
}

// The width that was assigned; a slot is as wide as an address.
#[tactic(auto, using(crate::proofs::Using::wide))]
pub(crate) fn assigned(j: &Joining<'_>) -> u64
    requires { Ready j.now }
    ensures is { (u : ℕ) → result ≡ (asked widths j.now u).0 }
    ensures few { result ≤ 64 }
{
    if flow::is_slot(&j.texts, j.name.family) {
        return widths::full(j.rules);
    }
    j.name.width
}

// The width that is used at u.
#[tactic(auto, using(crate::proofs::Using::wide))]
pub(crate) fn used(j: &Joining<'_>, u: usize) -> u64
    requires { Ready j.now × (u < length j.now.line.now) }
    ensures { result ≡ (asked widths j.now u).1 }
{
    if flow::is_slot(&j.texts, j.name.family) {
        return widths::full(j.rules);
    }
    use_width(&j.texts, j.line, u)
}

// Whether the use is a whole argument, condition, right side or returned value.
pub(crate) fn is_whole(j: &Joining<'_>, u: usize) -> bool
    requires { Ready j.now × (u < length j.now.line.now) }
    ensures { result ≡ is_whole (text_before (line_in j.now) u) (text_after (line_in j.now) u) }
{
    let before = sides::text_before(&j.texts, j.line, u);
    let behind = sides::text_after(&j.texts, j.line, u);
    sides::is_whole(before, behind)
}

// Whether what stands beside the use is narrower than 64 bits.
#[tactic(auto, using(crate::proofs::Using::rested))]
fn has_narrow_rest(j: &Joining<'_>, u: usize) -> bool
    requires { Ready j.now × (u < length j.now.line.now) }
    ensures { result ≡ has_narrow_rest (rules_of j.now.rules) (line_in j.now) u }
{
    let r = rest::rest_of(&j.texts, j.line, u);
    rest::has_below(&j.texts, &r, j.rules)
}

// Whether what stands beside the use is narrower than it.
#[tactic(auto, using(laws::proofs::Scans::tests), unfolding(cautions::specs::Uses::beside_narrower, crate::specs::Uses::has_narrow_rest))]
pub(crate) fn beside_narrower(j: &Joining<'_>, u: usize) -> bool
    requires { Ready j.now × (u < length j.now.line.now) }
    ensures { result ≡ asked beside_narrower j.now u }
{
    used(j, u) == 64 && !is_whole(j, u) && has_narrow_rest(j, u)
}

// Whether a Number stands at a place.
#[tactic(auto, using(crate::proofs::Using::numbered))]
fn number_at(texts: &Texts<'_>, line: &[u64], q: usize) -> bool
    ensures { result ≡ number_at (tokens_of texts.now line.now) q }
{
    match line.get(q) {
        Some(w) => words::kind(*w) == kinds::NUMBER,
        None => false,
    }
}

// Whether a Number is computed with the use, in front of it or behind it.
#[tactic(auto, using(crate::proofs::Using::fronts))]
fn number_before(j: &Joining<'_>, u: usize) -> bool
    requires { Ready j.now × (u < length j.now.line.now) }
    ensures { result ≡ number_before (line_in j.now) u }
{
    if u < 2 {
        return false;
    }
    if !number_at(&j.texts, j.line, u - 2) {
        return false;
    }
    !sides::compares(sides::text_before(&j.texts, j.line, u))
}

#[tactic(auto, using(laws::proofs::Scans::tests), unfolding(crate::specs::Uses::number_behind))]
fn number_behind(j: &Joining<'_>, u: usize) -> bool
    requires { Ready j.now × (u < length j.now.line.now) }
    ensures { result ≡ number_behind (line_in j.now) u }
{
    number_at(&j.texts, j.line, u + 2) && !sides::compares(sides::text_after(&j.texts, j.line, u))
}

// Whether a Number is computed with the use.
#[tactic(auto, using(crate::proofs::Using::numbers))]
pub(crate) fn beside_number(j: &Joining<'_>, u: usize) -> bool
    requires { Ready j.now × (u < length j.now.line.now) }
    ensures { result ≡ asked beside_number j.now u }
{
    if is_whole(j, u) {
        return false;
    }
    number_before(j, u) || number_behind(j, u)
}
