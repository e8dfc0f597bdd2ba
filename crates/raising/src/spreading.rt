// What a step puts on the lines that the value reaches, beside those that it rewrites, and the kinds that it gives these.
ghost use Rattle.std.specs.Prelude.{ℕ, suc, ◌≡◌, ◌≤◌, ◌<◌, false, List, eqb, length, get_or, take};
ghost use Rattle.reference.specs.Control.{not, ◌and◌, ◌or◌};
ghost use Rattle.reference.specs.Lists.{any};
ghost use Rattle.reference.specs.Rules.{volatile};
ghost use Rattle.cautions.specs.Forms.{ways, is_dark, reached_from};
ghost use Rattle.flow.specs.Reaching.{reached_table};
ghost use Rattle.flow.specs.Ways.{Tabled};
ghost use Rattle.ground.specs.Rules.{rules_of};
ghost use Rattle.lines.specs.Texts.{Known, bare_listing, fam_text};
ghost use Rattle.raising.specs.Others.{dark_at, stale_at, with_kinds, Marked};
ghost use Rattle.raising.specs.Spread.{is_noted, Notes, marked, far_kinds};

use flow::FormedListing;
use ground::rules::Rules;
use lines::fams::Fam;
use lines::words;
use usefacts::{Before, given};

const ODD_FORM: u16 = 1;

const STILL_READ: u16 = 2;

const HANDED_OVER: u16 = 512;

// Of a line, or of all: whether it is one of the others that the value reaches and is not looked into, or is, and reads the family.
#[derive(Clone, Copy)]
pub(crate) struct Others {
    pub dark: bool,
    pub stale: bool,
}

const NO_OTHER: Others = Others {
    dark: false,
    stale: false,
};

// Whether the join rewrites line k.
pub(crate) fn is_noted(parts: &[Option<Before>], k: usize) -> bool
    ensures { result ≡ is_noted parts.now k }
{
    match parts.get(k) {
        Some(p) => p.is_some(),
        None => false,
    }
}

// Whether line k is one of the others that the value reaches.
fn is_other(i: usize, parts: &[Option<Before>], seen: &[bool], k: usize) -> bool
    requires { k < length seen.now }
    ensures { result ≡ (get_or seen.now k false and not (eqb k i or is_noted parts.now k)) }
{
    if !seen[k] {
        return false;
    }
    if k == i {
        return false;
    }
    !is_noted(parts, k)
}

// What line k is of them.
fn other_at(
    g: &FormedListing<'_>,
    i: usize,
    f: Fam,
    rules: Rules,
    parts: &[Option<Before>],
    seen: &[bool],
    k: usize,
) -> Others
    requires { Tabled g.now × Known g.now.listing.texts f × (k < length g.now.listing.lines.now)
        × (length seen.now ≡ suc (length g.now.listing.lines.now)) }
    ensures dark { result.dark ≡ (get_or seen.now k false and dark_at (bare_listing g.now.listing) i parts.now k) }
    ensures stale { result.stale
        ≡ (get_or seen.now k false and stale_at (bare_listing g.now.listing) i parts.now (fam_text g.now.listing.texts f) k) }
{
    if !is_other(i, parts, seen, k) {
        return NO_OTHER;
    }
    if flow::is_dark(g, k) {
        return Others {
            dark: true,
            stale: false,
        };
    }
    let line = words::line_of(g.listing.tokens, g.listing.lines[k]);
    Others {
        dark: false,
        stale: flow::reads(&g.listing.texts, line, f, rules),
    }
}

// A set with what its line gets.
#[tactic(auto, unfolding(crate::specs::Others::with_kinds))]
fn with_kinds(s: u16, o: Others) -> u16
    ensures { result ≡ with_kinds s o }
{
    s | given(STILL_READ, o.stale) | given(ODD_FORM, o.dark)
}

#[tactic(auto, using(crate::proofs::Putting::eithers))]
fn either(a: bool, b: bool) -> bool
    ensures { result ≡ (a or b) }
{
    a || b
}

// Both kinds of lines found.
fn found_with(found: Others, o: Others) -> Others
    ensures dark { result.dark ≡ (found.dark or o.dark) }
    ensures stale { result.stale ≡ (found.stale or o.stale) }
{
    Others {
        dark: either(found.dark, o.dark),
        stale: either(found.stale, o.stale),
    }
}

// Puts on each of the others what it gets, and says what was found. Most lines are not reached.
fn mark_others(
    g: &FormedListing<'_>,
    i: usize,
    f: Fam,
    rules: Rules,
    parts: &[Option<Before>],
    seen: &[bool],
    sets: &mut [u16],
) -> Others
    requires { Tabled g.now × Known g.now.listing.texts f × (length g.now.listing.lines.now ≤ length sets.old)
        × (length seen.now ≡ suc (length g.now.listing.lines.now)) }
    ensures dark { result.dark ≡ any (dark_at (bare_listing g.now.listing) i parts.now) (reached_from 0 seen.now) }
    ensures stale { result.stale
        ≡ any (stale_at (bare_listing g.now.listing) i parts.now (fam_text g.now.listing.texts f)) (reached_from 0 seen.now) }
    ensures sets { Marked (bare_listing g.now.listing) i (fam_text g.now.listing.texts f) parts.now seen.now
        (length g.now.listing.lines.now) sets.old sets.new }
{
    let mut found = NO_OTHER;
    for k in 0..g.listing.lines.len() {
        if seen[k] {
            let o = other_at(g, i, f, rules, parts, seen, k);
            sets[k] = with_kinds(sets[k], o);
            found = found_with(found, o);
        }
    }
    found
}

// Whether one of the others is not looked into, as was found, or line i.
#[tactic(auto, using(crate::proofs::Putting::one_of))]
fn is_odd(g: &FormedListing<'_>, i: usize, found: bool) -> bool
    requires { Tabled g.now × (i < length g.now.listing.lines.now) }
    ensures { result ≡ (found or is_dark (bare_listing g.now.listing) (ways (bare_listing g.now.listing)) i) }
{
    if found {
        return true;
    }
    flow::is_dark(g, i)
}

// Of a step of line i, the value reaching the lines of the table `seen`: puts on the others of them what they get, and answers the kinds of
// the lines that are rewritten or cut; `again` says that line i itself reads the value.
pub(crate) fn spread(
    g: &FormedListing<'_>,
    i: usize,
    f: Fam,
    rules: Rules,
    parts: &[Option<Before>],
    seen: &[bool],
    again: bool,
    sets: &mut [u16],
) -> u16
    requires { Tabled g.now × Known g.now.listing.texts f × (i < length g.now.listing.lines.now)
        × (length g.now.listing.lines.now ≤ length sets.old) × (length seen.now ≡ suc (length g.now.listing.lines.now))
        × (seen.now ≡ reached_table (bare_listing g.now.listing) i (fam_text g.now.listing.texts f) (volatile (rules_of rules))) }
    ensures marked { (into : List ℕ) → Notes (bare_listing g.now.listing) parts.now into
        → take (length g.now.listing.lines.now) sets.new ≡ marked (rules_of rules) (bare_listing g.now.listing) i
        (fam_text g.now.listing.texts f) into (take (length g.now.listing.lines.now) sets.old) }
    ensures kinds { (into : List ℕ) → Notes (bare_listing g.now.listing) parts.now into
        → result ≡ far_kinds (rules_of rules) (bare_listing g.now.listing) i (fam_text g.now.listing.texts f) into again }
    ensures long { length sets.new ≡ length sets.old }
{
    let found = mark_others(g, i, f, rules, parts, seen, sets);
    let odd = is_odd(g, i, found.dark);
    let read = either(found.stale, again);
    let handed = flow::is_handed(g, f, rules, seen);
    given(ODD_FORM, odd) | (given(STILL_READ, read) | given(HANDED_OVER, handed))
}
