// The plan of an attempt: `propagate_constant` and `try_at` of the Rust, up to where they change the listing.
ghost use Rattle.std.specs.Prelude.{◌≡◌, ◌<◌, length};
ghost use Rattle.reference.specs.Rules.{volatile};
ghost use Rattle.reference.specs.Join.{is_bracketed};
ghost use Rattle.joining.specs.Plan.{wants_brackets, plan_constant, plan_use, plan_single, plan_for, decide};
ghost use Rattle.ground.specs.Rules.{rules_of};
ghost use Rattle.lines.specs.Shapes.{expr_words, Expression};
ghost use Rattle.life.specs.Labels.{Labelled, labels_of};
ghost use Rattle.plan.specs.Plans.{plan_among};
ghost use Rattle.plan.specs.Reaches.{reach};
ghost use Rattle.plan.specs.Texts.{Plans, Slotted, Sound, definition_in, slot_names};
ghost use Rattle.lines.specs.Texts.{Holds, Listed, bare_listing, tokens_of, words_at};

use crate::definitions::{Definition, definition_of};
use crate::reaches::Reach;
use crate::slots::{SlotNames, is_addressed};
use crate::{reaches, uses};
use ground::rules::Rules;
use life::{LabelledListing, dead_after};
use lines::fams::Fam;
use lines::shapes::Expr;
use lines::texts::{Listing, Texts};
use lines::traits::Kw;
use lines::{fams, shapes, words};
use std::ops::ControlFlow;

// The right side of line `line` takes the place of each token of the family in each line after it, up to line `last`, that uses the family,
// in brackets or without; and the line is removed. (Where the right side is not a constant, that is one token in one line.)
// Kept: beside build's `Substitution`, which has three of these fields. Plan and build do not rest on each other, so that an edit of one
// costs no check of the other. One type for both would stand in lines, as `Expr` does, where nothing would make or read it; join would copy
// no fields, and contracts would say `j.substitution.family` for `j.family`.
#[derive(Clone, Copy)]
pub struct Join {
    pub line: usize,
    pub last: usize,
    pub brackets: bool,
    pub family: Fam,
    pub expr: Expr,
}

// Kept: here and in uses.rt a line i, its definition d and the settings stand side by side, with `Sound .. d` and `i < length lines`.
// Both are facts of the listing too, so that a struct of i and d would spare neither clause; one that held the listing with its labels as
// well would hand labels to `plan_among` and `use_of`, which read none.

// The joining of the definition d of line i into its uses up to line `last`.
fn join_of(i: usize, last: usize, brackets: bool, d: Definition) -> Join
    ensures { result ≡ record { line = i; last = last; brackets = brackets; family = d.name.family; expr = d.expr } }
{
    Join {
        line: i,
        last,
        brackets,
        family: d.name.family,
        expr: d.expr,
    }
}

// How far a search for a constant's reach has come, ended or not.
fn come_to(search: ControlFlow<Reach, Reach>) -> Reach
    ensures { result ≡ record { used = (reach search).used; last = (reach search).last } }
{
    match search {
        ControlFlow::Continue(r) | ControlFlow::Break(r) => r,
    }
}

// Constants may be copied into several uses inside one straight-line run.
fn propagate_constant(
    scope: &LabelledListing<'_>,
    i: usize,
    d: Definition,
    rules: Rules,
) -> Option<Join>
    requires { Labelled scope.now × Sound scope.now.listing.texts (words_at scope.now.listing i) d
        × (i < length scope.now.listing.lines.now) }
    ensures { Plans scope.now.listing.texts (words_at scope.now.listing i) i
        (plan_constant (bare_listing scope.now.listing) i
        (definition_in scope.now.listing.texts (words_at scope.now.listing i) d)
        (labels_of scope.now) (volatile (rules_of rules))) result }
{
    let family = d.name.family;
    let r = come_to(reaches::reach_of(&scope.listing, i, family, rules));
    if r.used
        && reaches::ends_at(scope, i, r.last, family, rules)
        && reaches::all_take(&scope.listing, i, r.last, family, rules)
    {
        Some(join_of(i, r.last, false, d))
    } else {
        None
    }
}

// Whether the right side x of the line `source` gets brackets where no delimiters spare it.
pub fn is_bracketed(texts: &Texts<'_>, source: &[u64], x: Expr, rules: Rules) -> bool
    requires { Holds texts.now source.now × Expression source.now x }
    ensures { result ≡ is_bracketed (rules_of rules) (tokens_of texts.now (expr_words source.now x)) }
{
    if rules.profile {
        1 < x.count
    } else {
        shapes::is_operator_expr(texts, source, x)
    }
}

// Whether the right side x of the line `source` wants brackets at the token `pos` of a line.
fn wants_brackets(
    texts: &Texts<'_>,
    source: &[u64],
    x: Expr,
    line: &[u64],
    pos: usize,
    rules: Rules,
) -> bool
    requires { Holds texts.now source.now × Expression source.now x × Holds texts.now line.now
        × (pos < length line.now) }
    ensures { result ≡ wants_brackets (rules_of rules) (tokens_of texts.now (expr_words source.now x))
        (tokens_of texts.now line.now) pos }
{
    is_bracketed(texts, source, x, rules) && !uses::is_standalone(texts, line, pos)
}

// The plan for the use among the tokens of line j of the definition d of line i.
fn plan_among(
    listing: &Listing<'_>,
    i: usize,
    j: usize,
    d: Definition,
    rules: Rules,
) -> Option<Join>
    requires { Listed listing.now × Sound listing.now.texts (words_at listing.now i) d
        × (i < length listing.now.lines.now) × (j < length listing.now.lines.now) }
    ensures { Plans listing.now.texts (words_at listing.now i) i
        (plan_among (rules_of rules) (definition_in listing.now.texts (words_at listing.now i) d)
        (tokens_of listing.now.texts (words_at listing.now j)) j) result }
{
    let texts = &listing.texts;
    let source = words::line_of(listing.tokens, listing.lines[i]);
    let line = words::line_of(listing.tokens, listing.lines[j]);
    let pos = fams::first_of(texts, line, d.name.family)?;
    if !uses::use_fits(texts, line, pos, d.name, rules.parts) {
        return None;
    }
    let brackets = wants_brackets(texts, source, d.expr, line, pos, rules);
    Some(join_of(i, j, brackets, d))
}

// The plan for the use on line j of the definition d of line i.
fn plan_use(
    scope: &LabelledListing<'_>,
    i: usize,
    j: usize,
    d: Definition,
    rules: Rules,
) -> Option<Join>
    requires { Labelled scope.now × Sound scope.now.listing.texts (words_at scope.now.listing i) d
        × (i < length scope.now.listing.lines.now) × (j < length scope.now.listing.lines.now) }
    ensures { Plans scope.now.listing.texts (words_at scope.now.listing i) i
        (plan_use (rules_of rules) (bare_listing scope.now.listing) i
        (definition_in scope.now.listing.texts (words_at scope.now.listing i) d)
        (labels_of scope.now) (volatile (rules_of rules)) j) result }
{
    let line = words::line_of(scope.listing.tokens, scope.listing.lines[j]);
    let v = reaches::followed(&scope.listing, i, d.name.family, rules);
    if shapes::has_kw(&scope.listing.texts, line, Kw::While) || !dead_after(scope, j, v) {
        return None;
    }
    plan_among(&scope.listing, i, j, d, rules)
}

// The plan for the single use of the definition d of line i.
fn plan_single(scope: &LabelledListing<'_>, i: usize, d: Definition, rules: Rules) -> Option<Join>
    requires { Labelled scope.now × Sound scope.now.listing.texts (words_at scope.now.listing i) d
        × (i < length scope.now.listing.lines.now) }
    ensures { Plans scope.now.listing.texts (words_at scope.now.listing i) i
        (plan_single (rules_of rules) (bare_listing scope.now.listing) i
        (definition_in scope.now.listing.texts (words_at scope.now.listing i) d)
        (labels_of scope.now) (volatile (rules_of rules))) result }
{
    let j = uses::use_of(&scope.listing, i, d, rules)?;
    plan_use(scope, i, j, d, rules)
}

// The plan for the definition d of line i.
fn plan_for(scope: &LabelledListing<'_>, i: usize, d: Definition, rules: Rules) -> Option<Join>
    requires { Labelled scope.now × Sound scope.now.listing.texts (words_at scope.now.listing i) d
        × (i < length scope.now.listing.lines.now) }
    ensures { Plans scope.now.listing.texts (words_at scope.now.listing i) i
        (plan_for (rules_of rules) (bare_listing scope.now.listing) i
        (definition_in scope.now.listing.texts (words_at scope.now.listing i) d)
        (labels_of scope.now) (volatile (rules_of rules))) result }
{
    if shapes::is_lone_number(
        words::line_of(scope.listing.tokens, scope.listing.lines[i]),
        d.expr,
    )
        && let Some(j) = propagate_constant(scope, i, d, rules)
    {
        return Some(j);
    }
    plan_single(scope, i, d, rules)
}

// The plan for line i of a listing with the places of the round's labels; `slots` are the names that were addressed when the round began.
pub fn decide(
    scope: &LabelledListing<'_>,
    slots: &SlotNames<'_>,
    i: usize,
    rules: Rules,
) -> Option<Join>
    requires { Labelled scope.now × Slotted slots.now
        × (i < length scope.now.listing.lines.now) }
    ensures { Plans scope.now.listing.texts (words_at scope.now.listing i) i
        (decide (rules_of rules) (bare_listing scope.now.listing) i (labels_of scope.now)
        (slot_names slots.now)) result }
{
    let d = definition_of(
        &scope.listing.texts,
        words::line_of(scope.listing.tokens, scope.listing.lines[i]),
    )?;
    if is_addressed(&scope.listing.texts, slots, d.name.family) {
        return None;
    }
    plan_for(scope, i, d, rules)
}
