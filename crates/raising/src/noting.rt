// What each line that a join rewrites tells before the join is carried out, and the last of these lines.
ghost use Rattle.std.specs.Prelude.{◌≡◌, ◌≤◌, ◌<◌, ℕ, suc, length, get_or, reverse, drop, None};
ghost use Rattle.std.proofs.Math.Seq.{slice};
ghost use Rattle.std.proofs.Math.Option.{some};
ghost use Rattle.reference.specs.Lists.{any};
ghost use Rattle.reference.specs.Listing as reference;
ghost use Rattle.reference.specs.Listing.{◌at◌};
ghost use Rattle.reference.specs.Rules as R;
ghost use Rattle.reference.specs.Rules.{volatile};
ghost use Rattle.joining.specs.Plan as J;
ghost use Rattle.joining.specs.Plan.{definition_of};
ghost use Rattle.cautions.specs.Values.{world};
ghost use Rattle.ground.specs.Rules.{rules_of};
ghost use Rattle.lines.specs.Fams.{Names};
ghost use Rattle.lines.specs.Texts.{Listed, bare_listing};
ghost use Rattle.usefacts.specs.Split.{before_of};
ghost use Rattle.raising.specs.Noting.{Forgotten, Sound, fam_of, expr_of, lines_of, plan_of, told, ToldBy, last_noted};
ghost use Rattle.raising.specs.Tables.{Untold};

use crate::spreading::is_noted;
use flow::{FormedListing, is_guarded};
use ground::rules::Rules;
use lines::fams::{self, Named};
use lines::texts::Listing;
use lines::words;
use plan::changing::is_changed;
use plan::plans::Join;
use usefacts::{Before, Joining, before_line, is_world};

// A plan that is about to be carried out, in its listing; the register's name as it was assigned, the words of the right side, and what is
// asked of these: whether it is 0 or 1, and whether it gets brackets where no delimiters spare it.
#[derive(Clone, Copy)]
pub(crate) struct Noting<'a> {
    pub g: FormedListing<'a>,
    pub plan: Join,
    pub rules: Rules,
    pub name: Named,
    pub expr: &'a [u64],
    pub truth: bool,
    pub bracketed: bool,
}

// The name of the register or slot that line i begins with, where it is an assignment to one.
pub(crate) fn assigned_name(listing: &Listing<'_>, i: usize) -> Option<Named>
    requires { Listed listing.now × (i < length listing.now.lines.now) }
    ensures { (d : J.Definition) → definition_of (bare_listing listing.now at i).tokens ≡ some d
        → Names listing.now.texts.tape.now listing.now.texts.area.now (some d.fam) result }
{
    let line = words::line_of(listing.tokens, listing.lines[i]);
    match line.first() {
        Some(w) => fams::name_of(&listing.texts, *w),
        None => None,
    }
}

// What line k tells; `passed` says whether one of the lines between reads memory.
fn before_at(n: &Noting<'_>, k: usize, passed: bool) -> Before
    requires { Sound n.now × (k < length n.now.g.listing.lines.now) }
    ensures { (lines : reference.Listing) → passed ≡ any (λ l. world l.tokens) lines
        → result ≡ before_of (rules_of n.now.rules) (fam_of n.now) (expr_of n.now) (lines_of n.now at k).tokens lines }
{
    let listing = &n.g.listing;
    let j = Joining {
        texts: listing.texts,
        rules: n.rules,
        name: n.name,
        expr: n.expr,
        line: words::line_of(listing.tokens, listing.lines[k]),
        truth: n.truth,
        bracketed: n.bracketed,
        guarded: is_guarded(n.g.forms[k].form),
    };
    before_line(&j, passed)
}

// The same, if the plan rewrites line k.
fn told_at(n: &Noting<'_>, k: usize, passed: bool) -> Option<Before>
    requires { Sound n.now × (k < length n.now.g.listing.lines.now) }
    ensures { passed ≡ any (λ l. world l.tokens) (slice (suc n.now.plan.line) k (lines_of n.now))
        → result ≡ told (rules_of n.now.rules) (lines_of n.now) n.now.plan.line (plan_of n.now) (fam_of n.now) k }
{
    let listing = &n.g.listing;
    if is_changed(
        &listing.texts,
        listing.tokens,
        listing.lines[k],
        k,
        n.plan,
        n.rules,
    ) {
        Some(before_at(n, k, passed))
    } else {
        None
    }
}

// Whether line k reads memory.
fn is_world_at(n: &Noting<'_>, k: usize) -> bool
    requires { Sound n.now × (k < length n.now.g.listing.lines.now) }
    ensures { result ≡ world (lines_of n.now at k).tokens }
{
    let listing = &n.g.listing;
    is_world(
        &listing.texts,
        words::line_of(listing.tokens, listing.lines[k]),
    )
}

// Forgets what the lines from line a on, above line b, told.
pub(crate) fn forget(parts: &mut [Option<Before>], a: usize, b: usize)
    requires { (a ≤ b) × (b ≤ length parts.old) }
    ensures { Forgotten a b parts.old parts.new }
{
    for k in a..b {
        parts[k] = None;
    }
}

// Notes what each line tells.
pub(crate) fn note(n: &Noting<'_>, parts: &mut [Option<Before>])
    requires { Sound n.now × Untold parts.old × (length n.now.g.listing.lines.now ≤ length parts.old)
        × (n.now.plan.last < length n.now.g.listing.lines.now) }
    ensures { ToldBy (rules_of n.now.rules) (lines_of n.now) n.now.plan.line (plan_of n.now) (fam_of n.now) parts.new }
{
    let mut passed = false;
    for k in n.plan.line + 1..n.plan.last + 1 {
        parts[k] = told_at(n, k, passed);
        passed = passed || is_world_at(n, k);
    }
}

// The last line that is rewritten, or line i.
pub(crate) fn last_noted(parts: &[Option<Before>], i: usize) -> usize
    requires { i < length parts.now }
    ensures last { result ≡ last_noted parts.now i }
    ensures within { (i ≤ result) × (result < length parts.now) }
    ensures behind { (k : ℕ) → result < k → k < length parts.now → get_or parts.now k None ≡ None }
{
    let mut last = i;
    for k in i + 1..parts.len() {
        if is_noted(parts, k) {
            last = k;
        }
    }
    last
}
