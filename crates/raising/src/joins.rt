// One join: what the lines tell before it, and what the new lines tell after it.
ghost use Rattle.std.specs.Prelude.{◌≡◌, ◌≤◌, ◌<◌, true, length, take, suc};
ghost use Rattle.reference.specs.Listing as reference;
ghost use Rattle.reference.specs.Rules as R;
ghost use Rattle.std.proofs.Math.Option.{some};
ghost use Rattle.reference.specs.Listing.{◌at◌};
ghost use Rattle.joining.specs.Plan.{Definition, definition_of, Plan, act};
ghost use Rattle.ground.specs.Rules.{rules_of};
ghost use Rattle.lines.specs.Shapes.{expr_words, Expression};
ghost use Rattle.lines.specs.Texts.{Known, Listed, bare_listing, words_at};
ghost use Rattle.flow.specs.Ways.{Tabled};
ghost use Rattle.raising.specs.Tables.{is_on, Gathered, Room, Kept, SameLent, Untold};
ghost use Rattle.raising.specs.Steps.{Joinable, Raised, into, plan_in};
ghost use Rattle.raising.specs.Spread.{marked};
ghost use Rattle.raising.specs.Noting.{Sound, ToldBy, fam_of, lines_of, plan_of};
ghost use Rattle.raising.specs.Halfway.{Begun, Halfway, own_kinds, shared_kinds};

use crate::noting::{Noting, assigned_name, forget, last_noted, note};
use crate::renewing::hand_on;
use crate::spreading::spread;
use crate::tables::Raising;
use flow::{FormedListing, LineForm, is_odd, is_slot, is_truth, past_call, reached};
use ground::rules::Rules;
use lines::fams::Named;
use lines::texts::Listing;
use lines::words;
use plan::plans::{Join, is_bracketed};
use usefacts::{Before, copy_expr, given};

// The kinds, as bits.
const ODD_FORM: u16 = 1;

const OVERWRITTEN: u16 = 4;

const SLOT: u16 = 256;

// The plan j with what is asked of its right side, whose words are `expr`.
fn prepared<'a>(
    g: FormedListing<'a>,
    j: Join,
    rules: Rules,
    name: Named,
    expr: &'a [u64],
) -> Noting<'a>
    requires { Tabled g × (j.line < length g.listing.lines.now) × Known g.listing.texts j.family × Known g.listing.texts name.family
        × (name.width ≤ 64) × Expression (words_at g.listing j.line) j.expr × (expr.now ≡ expr_words (words_at g.listing j.line) j.expr) }
    ensures sound { Sound result }
    ensures same { (result.g ≡ g.entry) × (result.plan ≡ j) × (result.rules ≡ rules) × (result.name ≡ name) }
{
    let texts = &g.listing.texts;
    let source = words::line_of(g.listing.tokens, g.listing.lines[j.line]);
    Noting {
        g,
        plan: j,
        rules,
        name,
        expr,
        truth: is_truth(texts, expr),
        bracketed: is_bracketed(texts, source, j.expr, rules),
    }
}

// The kinds of the join itself, if line `last` is the last that it rewrites.
fn own_kinds(n: &Noting<'_>, last: usize) -> u16
    requires { Sound n.now × (n.now.plan.line ≤ last) × (last < length n.now.g.listing.lines.now) }
    ensures { result ≡ own_kinds (rules_of n.now.rules) (lines_of n.now) n.now.plan.line (fam_of n.now) (plan_of n.now).expr last }
{
    let i = n.plan.line;
    let odd = given(ODD_FORM, is_odd(&n.g, i, last));
    let over = given(
        OVERWRITTEN,
        past_call(&n.g.listing, i, last, n.name.family, n.rules),
    );
    let slot = given(SLOT, is_slot(&n.g.listing.texts, n.name.family));
    odd | (over | slot)
}

// Notes what the lines tell, marks the others that the value reaches, and answers the kinds that each rewritten line gets, but for its own.
fn raise(n: &Noting<'_>, parts: &mut [Option<Before>], seen: &mut [bool], sets: &mut [u16]) -> u16
    requires { Sound n.now × (n.now.plan.last < length n.now.g.listing.lines.now) × (length n.now.g.listing.lines.now ≤ length parts.old)
        × Untold parts.old × (length n.now.g.listing.lines.now < length seen.old) × (length n.now.g.listing.lines.now ≤ length sets.old) }
    ensures told { ToldBy (rules_of n.now.rules) (lines_of n.now) n.now.plan.line (plan_of n.now) (fam_of n.now) parts.new }
    ensures sets { take (length n.now.g.listing.lines.now) sets.new
        ≡ marked (rules_of n.now.rules) (lines_of n.now) n.now.plan.line (fam_of n.now).name
        (into (rules_of n.now.rules) (lines_of n.now) n.now.plan.line (plan_of n.now)) (take (length n.now.g.listing.lines.now) sets.old) }
    ensures own { result ≡ shared_kinds (rules_of n.now.rules) (lines_of n.now) n.now.plan.line (plan_of n.now) (fam_of n.now) }
{
    let lines = n.g.listing.lines.len();
    let i = n.plan.line;
    let f = n.name.family;
    note(n, parts);
    reached(&n.g, i, f, n.rules, &mut seen[..lines + 1]);
    let own = own_kinds(n, last_noted(&parts[..lines], i));
    own | spread(&n.g, i, f, n.rules, parts, &seen[..lines + 1], false, sets)
}

// The same of the plan j, of tables lent one by one. `forms` is only read.
// Not inlined: a cleaning that keeps no cautions is faster where this does not stand in its attempts.
#[inline(never)]
fn begin_join(
    listing: &Listing<'_>,
    j: Join,
    rules: Rules,
    sets: &mut [u16],
    forms: &mut [LineForm],
    parts: &mut [Option<Before>],
    seen: &mut [bool],
    expr: &mut [u64],
) -> u16
    requires { Joinable (rules_of rules) listing.now j × Gathered (bare_listing listing.now) forms.old × (256 ≤ length sets.old)
        × (256 ≤ length forms.old) × (256 ≤ length parts.old) × (257 ≤ length seen.old) × (1024 ≤ length expr.old) × Untold parts.old }
    ensures begun { (d : Definition) → definition_of (bare_listing listing.now at j.line).tokens ≡ some d
        → Begun (rules_of rules) (bare_listing listing.now) j.line (plan_in listing.now j) d.fam parts.new sets.old sets.new result }
    ensures forms { forms.new ≡ forms.old }
{
    let Some(name) = assigned_name(listing, j.line) else {
        return 0;
    };
    copy_expr(
        words::line_of(listing.tokens, listing.lines[j.line]),
        j.expr,
        expr,
    );
    let g = FormedListing {
        listing: *listing,
        forms: &forms[..listing.lines.len()],
    };
    let n = prepared(g, j, rules, name, &expr[..j.expr.count]);
    raise(&n, parts, seen, sets)
}

// Before the plan j is carried out: notes what each line that it rewrites tells, marks the other lines that the value reaches, and answers
// the kinds that each rewritten line gets, but for its own.
pub fn before_join(listing: &Listing<'_>, j: Join, rules: Rules, r: &mut Raising<'_>) -> u16
    requires { Joinable (rules_of rules) listing.now j × Kept (bare_listing listing.now) r.old }
    ensures halfway { Halfway (rules_of rules) (bare_listing listing.now) j.line (plan_in listing.now j) r.old r.new result }
    ensures lent { SameLent r.old r.new }
{
    if r.sets.len() == 0 {
        return 0;
    }
    begin_join(listing, j, rules, r.sets, r.forms, r.parts, r.seen, r.expr)
}

// After it, of the listing that it left, line i being gone: puts on each rewritten line its kinds and those of line i.
pub fn after_join(listing: &Listing<'_>, i: usize, own: u16, r: &mut Raising<'_>)
    requires { Listed listing.now × (length listing.now.lines.now < 256) × (i ≤ length listing.now.lines.now)
        × (is_on r.old ≡ true → Room r.old) }
    ensures raised { (rules : R.Rules) (lines : reference.Listing) (p : Plan) (before : Raising) → Halfway rules lines i p before r.old own
        → bare_listing listing.now ≡ act rules lines i p → i < length lines → Raised rules lines i p before r.new }
    ensures lent { SameLent r.old r.new }
{
    if r.sets.len() == 0 {
        return;
    }
    // Lent on one by one, as in crate join.
    let parts = &mut *r.parts;
    let sets = &mut *r.sets;
    let last = last_noted(&parts[..listing.lines.len() + 1], i);
    hand_on(listing, i, last, own, parts, sets, r.forms);
    forget(parts, i + 1, last + 1);
}
