// How far a register's value goes along the lines that may come next: one sweep over the lines that it reaches, of which the place behind
// the last one stands for the caller.
ghost use Rattle.std.specs.Prelude.{ℕ, Bool, List, ◌≡◌, ◌+◌, ◌<◌, suc, true, false, length, set, take, drop};
ghost use Rattle.std.proofs.Math.Seq.{slice};
ghost use Rattle.reference.specs.Lists.{count, is_some};
ghost use Rattle.reference.specs.Rules.{volatile};
ghost use Rattle.reference.specs.Listing.{◌at◌};
ghost use Rattle.reference.specs.Text.{bytes, ◌≟◌};
ghost use Rattle.cautions.specs.Forms.{form, places, next, ways, hangs, is_dark, reach, sweep};
ghost use Rattle.flow.specs.Ways.{Tabled, forms_of};
ghost use Rattle.flow.specs.Reaching.{is_one, cases_in, after, is_stale, stops_at, onward_of, stepped, reached_table};
ghost use Rattle.flow.specs.Spans.{Within, widened};
ghost use Rattle.ground.specs.Rules.{rules_of};
ghost use Rattle.lines.specs.Texts.{Known, bare_listing, fam_text};

use crate::lineforms::Form;
use crate::values;
use crate::ways::{FormedListing, Next, next_of};
use ground::rules::Rules;
use lines::fams::Fam;
use lines::words;

// The places from `first` to `last`: a sweep looks at no others where no others are set.
#[derive(Clone, Copy)]
pub(crate) struct Span {
    pub first: usize,
    pub last: usize,
}

// Sets the place k, if there is one.
fn mark(seen: &mut [bool], k: usize)
    ensures { seen.new ≡ set seen.old k true }
{
    if k < seen.len() {
        seen[k] = true;
    }
}

// Sets the place of line m, if there is one and it is a case.
fn mark_case(g: &FormedListing<'_>, m: usize, seen: &mut [bool])
    requires { Tabled g.now }
    ensures { seen.new ≡ reach (cases_in (bare_listing g.now.listing) (take 1 (drop m (places (bare_listing g.now.listing))))) seen.old }
{
    if g.forms.len() <= m {
        return;
    }
    let is_case = g.forms[m].is_case;
    if !is_case {
        return;
    }
    mark(seen, m);
}

// Sets the places of the cases from line a on, above line c.
fn mark_cases(g: &FormedListing<'_>, a: usize, c: usize, seen: &mut [bool])
    requires { Tabled g.now }
    ensures { seen.new ≡ reach (cases_in (bare_listing g.now.listing) (slice a c (places (bare_listing g.now.listing)))) seen.old }
{
    for m in a..c {
        mark_case(g, m, seen);
    }
}

// Sets the lines that may come next after line k.
pub fn mark_next(g: &FormedListing<'_>, k: usize, seen: &mut [bool])
    requires { Tabled g.now × (k < length g.now.listing.lines.now) }
    ensures { seen.new ≡ reach (after (bare_listing g.now.listing) k) seen.old }
{
    match next_of(g, k) {
        Next::Unknown => {}
        Next::Nowhere => {}
        Next::One(a) => mark(seen, a),
        Next::Two(a, b) => {
            mark(seen, a);
            mark(seen, b);
        }
        Next::Three(a, b, c) => {
            mark(seen, a);
            mark(seen, b);
            mark(seen, c);
        }
        Next::Cases(c) => {
            mark_cases(g, k + 1, c, seen);
            mark(seen, c);
        }
    }
}

// Whether it is known which lines may come next after line k.
pub fn is_known(g: &FormedListing<'_>, k: usize) -> bool
    requires { Tabled g.now × (k < length g.now.listing.lines.now) }
    ensures { result ≡ is_some (next (bare_listing g.now.listing) (forms_of (bare_listing g.now.listing)) k) }
{
    match next_of(g, k) {
        Next::Unknown => false,
        Next::Nowhere => true,
        Next::One(_) => true,
        Next::Two(_, _) => true,
        Next::Three(_, _, _) => true,
        Next::Cases(_) => true,
    }
}

// Whether line k is not looked into.
pub fn is_dark(g: &FormedListing<'_>, k: usize) -> bool
    requires { Tabled g.now × (k < length g.now.listing.lines.now) }
    ensures { result ≡ is_dark (bare_listing g.now.listing) (ways (bare_listing g.now.listing)) k }
{
    if !is_known(g, k) {
        return true;
    }
    g.forms[k].is_opaque
}

// Whether line k is a label alone.
fn is_label_line(g: &FormedListing<'_>, k: usize) -> bool
    requires { Tabled g.now × (k < length g.now.listing.lines.now) }
    ensures { result ≡ (form (bare_listing g.now.listing at k).tokens ≟ bytes ":") }
{
    match g.forms[k].form {
        Form::Label => true,
        _ => false,
    }
}

// Whether line i hangs on the line above it, labels left out: it is not known which lines come next after that one.
pub fn hangs(g: &FormedListing<'_>, i: usize) -> bool
    requires { Tabled g.now × (i < length g.now.listing.lines.now) }
    ensures { result ≡ hangs (bare_listing g.now.listing) (ways (bare_listing g.now.listing)) i }
{
    for j in 0..i {
        let k = i - 1 - j;
        if !is_label_line(g, k) {
            return !is_known(g, k);
        }
    }
    false
}

// Whether line k is looked into and reads the family: where the value that it finds is an older one, it reads that.
#[tactic(auto, using(laws::proofs::Scans::tests), unfolding(crate::specs::Reaching::is_stale))]
pub fn is_stale(g: &FormedListing<'_>, k: usize, f: Fam, rules: Rules) -> bool
    requires { Tabled g.now × (k < length g.now.listing.lines.now) × Known g.now.listing.texts f }
    ensures { result ≡ is_stale (bare_listing g.now.listing) (fam_text g.now.listing.texts f) k }
{
    if is_dark(g, k) {
        return false;
    }
    let line = words::line_of(g.listing.tokens, g.listing.lines[k]);
    values::reads(&g.listing.texts, line, f, rules)
}

// Whether the value of line i goes no further than line k.
fn stops_at(g: &FormedListing<'_>, i: usize, f: Fam, rules: Rules, k: usize) -> bool
    requires { Tabled g.now × (k < length g.now.listing.lines.now) × Known g.now.listing.texts f }
    ensures { result ≡ stops_at (bare_listing g.now.listing) i (fam_text g.now.listing.texts f) (volatile (rules_of rules)) k }
{
    if k == i {
        return true;
    }
    if is_dark(g, k) {
        return true;
    }
    let line = words::line_of(g.listing.tokens, g.listing.lines[k]);
    values::ends(&g.listing.texts, line, g.forms[k], f, rules)
}

// The span with the place k.
fn widened(span: Span, k: usize) -> Span
    ensures { result ≡ widened span k }
{
    Span {
        first: span.first.min(k),
        last: span.last.max(k),
    }
}

// The span with the lines that may come next after line k.
fn span_next(g: &FormedListing<'_>, k: usize, span: Span) -> Span
    requires { Tabled g.now × (k < length g.now.listing.lines.now) }
    ensures { (s : List Bool) → length s ≡ suc (length g.now.listing.lines.now) → Within span s
        → Within result (reach (after (bare_listing g.now.listing) k) s) }
{
    match next_of(g, k) {
        Next::Unknown => span,
        Next::Nowhere => span,
        Next::One(a) => widened(span, a),
        Next::Two(a, b) => widened(widened(span, a), b),
        Next::Three(a, b, c) => widened(widened(widened(span, a), b), c),
        Next::Cases(_) => Span {
            first: 0,
            last: g.listing.lines.len(),
        },
    }
}

// From line k, if it is reached, on to the next ones; answers the span with those.
fn step(
    g: &FormedListing<'_>,
    i: usize,
    f: Fam,
    rules: Rules,
    k: usize,
    span: Span,
    seen: &mut [bool],
) -> Span
    requires { Tabled g.now × (k < length g.now.listing.lines.now) × Known g.now.listing.texts f
        × (length seen.old ≡ suc (length g.now.listing.lines.now)) × Within span seen.old }
    ensures { (seen.new ≡ stepped (bare_listing g.now.listing) i (fam_text g.now.listing.texts f) (volatile (rules_of rules)) k seen.old)
        × Within result seen.new }
{
    let is_reached = seen[k];
    if !is_reached {
        return span;
    }
    if stops_at(g, i, f, rules, k) {
        return span;
    }
    mark_next(g, k, seen);
    span_next(g, k, span)
}

// From each line that is reached on to the next ones, from the first line to the last; answers the span of what is set then.
fn sweep(
    g: &FormedListing<'_>,
    i: usize,
    f: Fam,
    rules: Rules,
    span: Span,
    seen: &mut [bool],
) -> Span
    requires { Tabled g.now × Known g.now.listing.texts f × (length seen.old ≡ suc (length g.now.listing.lines.now))
        × Within span seen.old }
    ensures { (seen.new ≡ sweep 0 (onward_of (bare_listing g.now.listing) i
        (fam_text g.now.listing.texts f) (volatile (rules_of rules))) seen.old) × Within result seen.new }
{
    let mut reached = span;
    for k in span.first..g.listing.lines.len() {
        if reached.last < k {
            return reached;
        }
        reached = step(g, i, f, rules, k, reached, seen);
    }
    reached
}

// How many places are set.
pub fn count_set(seen: &[bool]) -> u16
    requires { length seen.now < 65536 }
    ensures { result ≡ count is_one seen.now }
{
    let mut n = 0;
    for b in seen {
        n += u16::from(*b);
    }
    n
}

// Sets the lines, and the place behind them for the caller, that the value which line i gave the family may reach: sweeps until one sets no
// place more.
pub fn reached(g: &FormedListing<'_>, i: usize, f: Fam, rules: Rules, seen: &mut [bool])
    requires { Tabled g.now × (i < length g.now.listing.lines.now) × Known g.now.listing.texts f
        × (length seen.old ≡ suc (length g.now.listing.lines.now)) }
    ensures { seen.new ≡ reached_table (bare_listing g.now.listing) i (fam_text g.now.listing.texts f) (volatile (rules_of rules)) }
{
    seen.fill(false);
    mark_next(g, i, seen);
    let none = Span {
        first: g.listing.lines.len(),
        last: 0,
    };
    let mut span = span_next(g, i, none);
    let mut before = count_set(seen);
    for turn in 0..g.listing.lines.len() {
        span = sweep(g, i, f, rules, span, seen);
        let now = count_set(seen);
        if now == before {
            return;
        }
        before = now;
    }
}
