// How far a constant reaches, and whether every use takes it: the scan and the tests of `propagate_constant` of the Rust.
ghost use Rattle.std.specs.Prelude.{◌≡◌, suc, ◌<◌, length, get_or};
ghost use Rattle.std.proofs.Math.Seq.{slice};
ghost use Rattle.reference.specs.Rules.{volatile};
ghost use Rattle.reference.specs.Join.{ends_run, updates_first, bad_use};
ghost use Rattle.joining.specs.Plan.{reach_at, reach_of, refuses, all_take, ends_at};
ghost use Rattle.lines.specs.Codes.{family_number};
ghost use Rattle.lines.specs.Lines.{indent_of};
ghost use Rattle.ground.specs.Rules.{rules_of};
ghost use Rattle.life.specs.Labels.{Labelled, labels_of};
ghost use Rattle.plan.specs.Reaches.{reach, reached};
ghost use Rattle.lines.specs.Texts.{Holds, Known, Lined, Listed, bare_in, bare_listing, fam_text, tokens_of};

use ground::kinds;
use ground::rules::Rules;
use life::{Followed, LabelledListing, Touched, dead_after};
use linefacts::{fact_number, is_calling, is_transparent};
use lines::fams::Fam;
use lines::texts::{Listing, Texts};
use lines::traits::{self, Kw, has};
use lines::{fams, shapes, words};
use std::ops::ControlFlow;

// How far a constant reaches: whether a line uses it, and the last line that uses or overwrites it; its own line where there is none.
#[derive(Clone, Copy)]
pub struct Reach {
    pub used: bool,
    pub last: usize,
}

// The value of the family that line i defines.
pub(crate) fn followed(listing: &Listing<'_>, i: usize, family: Fam, rules: Rules) -> Followed
    requires { i < length listing.now.lines.now }
    ensures { result ≡ record { family = family; indent = indent_of (get_or listing.now.lines.now i 0); start = i; rules = rules } }
{
    Followed {
        family,
        indent: words::indent(listing.lines[i]),
        start: i,
        rules,
    }
}

// Whether a line ends the run of lines before it is looked at.
fn ends_run(listing: &Listing<'_>, l: u64, base_indent: u64) -> bool
    requires { Lined listing.now.texts listing.now.tokens.now l }
    ensures { result ≡ ends_run base_indent (bare_in listing.now.texts listing.now.tokens.now l) }
{
    let line = words::line_of(listing.tokens, l);
    shapes::is_label(&listing.texts, line)
        || words::indent(l) != base_indent
        || shapes::has_kw(&listing.texts, line, Kw::While)
        || shapes::has_kw(&listing.texts, line, Kw::Goto)
}

// The reach r of the constant v with line j looked at, and whether the search ends or goes on.
fn reach_at(listing: &Listing<'_>, j: usize, v: Followed, r: Reach) -> ControlFlow<Reach, Reach>
    requires { Listed listing.now × Known listing.now.texts v.family × (j < length listing.now.lines.now) }
    ensures { reach result ≡ reach_at v.indent (fam_text listing.now.texts v.family) (volatile (rules_of v.rules)) j
        (bare_in listing.now.texts listing.now.tokens.now (get_or listing.now.lines.now j 0)) (reached r) }
{
    let l = listing.lines[j];
    if ends_run(listing, l, v.indent) {
        return ControlFlow::Break(r);
    }
    let line = words::line_of(listing.tokens, l);
    let r = match life::touch(&listing.texts, line, v.family, v.rules) {
        Touched::Nothing => r,
        Touched::Kill => return ControlFlow::Break(Reach { last: j, ..r }),
        Touched::Use(_) => Reach {
            used: true,
            last: j,
        },
    };
    if shapes::opens_or_closes(&listing.texts, line) {
        ControlFlow::Break(r)
    } else {
        ControlFlow::Continue(r)
    }
}

// How far the constant v reaches with line j more, by the line's facts where they tell it: at the same indent a transparent line changes
// nothing, and a calling one only what calls overwrite. n is the number of the family.
fn reach_by_facts(
    listing: &Listing<'_>,
    j: usize,
    v: Followed,
    n: u64,
    r: Reach,
) -> ControlFlow<Reach, Reach>
    requires { Listed listing.now × Known listing.now.texts v.family × (j < length listing.now.lines.now)
        × (n ≡ family_number (fam_text listing.now.texts v.family)) }
    ensures { reach result ≡ reach_at v.indent (fam_text listing.now.texts v.family) (volatile (rules_of v.rules)) j
        (bare_in listing.now.texts listing.now.tokens.now (get_or listing.now.lines.now j 0)) (reached r) }
{
    let l = listing.lines[j];
    if words::indent(l) == v.indent {
        if is_transparent(l, n) {
            return ControlFlow::Continue(r);
        }
        if is_calling(l, n) {
            return if fams::is_volatile(&listing.texts, v.family, v.rules) {
                ControlFlow::Break(Reach { last: j, ..r })
            } else {
                ControlFlow::Continue(r)
            };
        }
    }
    reach_at(listing, j, v, r)
}

// How far the constant of line i reaches, and whether the search for it ended before the lines did.
pub fn reach_of(
    listing: &Listing<'_>,
    i: usize,
    family: Fam,
    rules: Rules,
) -> ControlFlow<Reach, Reach>
    requires { Listed listing.now × Known listing.now.texts family × (i < length listing.now.lines.now) }
    ensures { reach result ≡ reach_of (bare_listing listing.now) i (fam_text listing.now.texts family) (volatile (rules_of rules)) }
{
    let v = followed(listing, i, family, rules);
    let n = fact_number(&listing.texts, family);
    let mut r = Reach {
        used: false,
        last: i,
    };
    // Kept: a loop: of `try_fold` the kit has a clause over a run of calls, but no lemma over a list, as it has of `fold`.
    for j in i + 1..listing.lines.len() {
        match reach_by_facts(listing, j, v, n, r) {
            ControlFlow::Continue(on) => r = on,
            ControlFlow::Break(end) => return ControlFlow::Break(end),
        }
    }
    ControlFlow::Continue(r)
}

// Whether the first token of a line is of the family, and a Punct after it is neither ` = ` nor ` ==`.
fn updates_first(texts: &Texts<'_>, line: &[u64], f: Fam) -> bool
    requires { Holds texts.now line.now × Known texts.now f }
    ensures { result ≡ updates_first (fam_text texts.now f) (tokens_of texts.now line.now) }
{
    2 <= line.len()
        && fams::is_of(texts, line[0], f)
        && words::kind(line[1]) == kinds::PUNCT
        && !has(texts, line[1], traits::ASSIGN)
        && !has(texts, line[1], traits::EQUAL)
}

// Whether a line that uses the family does not only read it, or reads less than 32 bits of it.
fn bad_use(texts: &Texts<'_>, line: &[u64], f: Fam) -> bool
    requires { Holds texts.now line.now × Known texts.now f }
    ensures { result ≡ bad_use (fam_text texts.now f) (tokens_of texts.now line.now) }
{
    fams::writes(texts, line, f)
        || updates_first(texts, line, f)
        || fams::has_narrow(texts, line, f)
}

// Whether a line uses the family and cannot take a constant for it.
fn refuses_constant(listing: &Listing<'_>, l: u64, family: Fam, rules: Rules) -> bool
    requires { Lined listing.now.texts listing.now.tokens.now l × Known listing.now.texts family }
    ensures { result ≡ refuses (fam_text listing.now.texts family) (volatile (rules_of rules))
        (bare_in listing.now.texts listing.now.tokens.now l) }
{
    let line = words::line_of(listing.tokens, l);
    life::uses(&listing.texts, line, family, rules) && bad_use(&listing.texts, line, family)
}

// Whether each line after line i, up to line `last`, that uses the family takes a constant for it.
pub fn all_take(listing: &Listing<'_>, i: usize, last: usize, family: Fam, rules: Rules) -> bool
    requires { Listed listing.now × Known listing.now.texts family × (i < length listing.now.lines.now)
        × (last < length listing.now.lines.now) }
    ensures { result ≡ all_take (fam_text listing.now.texts family) (volatile (rules_of rules))
        (slice (suc i) (suc last) (bare_listing listing.now)) }
{
    listing.lines[..=last]
        .iter()
        .skip(i + 1)
        .all(|l| !refuses_constant(listing, *l, family, rules))
}

// Whether the family's value of line i is never read after line `last`.
pub fn ends_at(
    scope: &LabelledListing<'_>,
    i: usize,
    last: usize,
    family: Fam,
    rules: Rules,
) -> bool
    requires { Labelled scope.now × Known scope.now.listing.texts family
        × (i < length scope.now.listing.lines.now) × (last < length scope.now.listing.lines.now) }
    ensures { result ≡ ends_at (bare_listing scope.now.listing) i (fam_text scope.now.listing.texts family)
        (labels_of scope.now) (volatile (rules_of rules)) last }
{
    let v = followed(&scope.listing, i, family, rules);
    dead_after(scope, last, v)
        || life::kills(
            &scope.listing.texts,
            words::line_of(scope.listing.tokens, scope.listing.lines[last]),
            family,
            rules,
        )
}
