// One cut: what it puts on the lines, and the form of the line that it leaves.
ghost use Rattle.std.specs.Prelude.{◌≡◌, ◌≤◌, ◌<◌, suc, true, false, length, get_or, drop, take};
ghost use Rattle.reference.specs.Control.{◌and◌};
ghost use Rattle.reference.specs.Lists.{modify};
ghost use Rattle.reference.specs.Listing as reference;
ghost use Rattle.reference.specs.Listing.{with_tokens, ◌at◌};
ghost use Rattle.reference.specs.Text.{bytes};
ghost use Rattle.cautions.specs.Cautions.{both};
ghost use Rattle.cautions.specs.Forms.{reads};
ghost use Rattle.cautions.specs.Joins.{cut_cautions};
ghost use Rattle.flow.specs.Ways.{Tabled};
ghost use Rattle.ground.specs.Rules.{rules_of};
ghost use Rattle.lines.specs.Texts.{Listed, bare_listing};
ghost use Rattle.raising.specs.Tables.{is_on, Gathered, Room, Kept, SameLent, sets_now};
ghost use Rattle.raising.specs.Steps.{Cautioned};

use crate::spreading;
use crate::tables::Raising;
use flow::{FormedListing, LineForm};
use ground::rules::Rules;
use lines::texts::Listing;
use lines::words;
use names::RAX;

// Whether line i reads rax behind its first two tokens, and its result reaches itself.
fn reads_again(g: &FormedListing<'_>, i: usize, rules: Rules, seen: &[bool]) -> bool
    requires { Tabled g.now × (i < length g.now.listing.lines.now) × (i < length seen.now) }
    ensures { result ≡ (get_or seen.now i false and reads (bytes "rax") (drop 2 (bare_listing g.now.listing at i).tokens)) }
{
    if !seen[i] {
        return false;
    }
    let line = words::line_of(g.listing.tokens, g.listing.lines[i]);
    if line.len() < 2 {
        return false;
    }
    flow::reads(&g.listing.texts, &line[2..], RAX, rules)
}

// Puts the kinds of the cut of line i on the lines; the places that its result reaches are noted on the way.
fn raise(g: &FormedListing<'_>, i: usize, rules: Rules, seen: &mut [bool], sets: &mut [u16])
    requires { Tabled g.now × (i < length g.now.listing.lines.now) × (length seen.old ≡ suc (length g.now.listing.lines.now))
        × (length g.now.listing.lines.now ≤ length sets.old) }
    ensures sets { take (length g.now.listing.lines.now) sets.new ≡ both (take (length g.now.listing.lines.now) sets.old)
        (cut_cautions (rules_of rules) (bare_listing g.now.listing) i) }
    ensures sets_long { length sets.new ≡ length sets.old }
    ensures seen_long { length seen.new ≡ length seen.old }
{
    flow::reached(g, i, RAX, rules, seen);
    let again = reads_again(g, i, rules, seen);
    let own = spreading::spread(g, i, RAX, rules, &[], seen, again, sets);
    sets[i] = sets[i] | own;
}

// The same with the tables lent apart.
// Kept: the forms are lent to be written, and are not: the borrow checker has no rule for a slice that is read through tables of which
// another is lent to be written.
// Not inlined: a cleaning that keeps no cautions is faster where this does not stand in its attempts.
#[inline(never)]
fn raise_in(
    listing: &Listing<'_>,
    i: usize,
    rules: Rules,
    forms: &mut [LineForm],
    seen: &mut [bool],
    sets: &mut [u16],
)
    requires { Listed listing.now × (length listing.now.lines.now ≤ 256) × (i < length listing.now.lines.now)
        × Gathered (bare_listing listing.now) forms.old × (length listing.now.lines.now ≤ length forms.old)
        × (length listing.now.lines.now < length seen.old) × (length listing.now.lines.now ≤ length sets.old) }
    ensures sets { take (length listing.now.lines.now) sets.new ≡ both (take (length listing.now.lines.now) sets.old)
        (cut_cautions (rules_of rules) (bare_listing listing.now) i) }
    ensures sets_long { length sets.new ≡ length sets.old }
    ensures seen_long { length seen.new ≡ length seen.old }
    ensures forms { forms.new ≡ forms.old }
{
    let n = listing.lines.len();
    let g = FormedListing {
        listing: *listing,
        forms: &forms[..n],
    };
    raise(&g, i, rules, &mut seen[..n + 1], sets);
}

// Before the result of line i is cut: puts its kinds on the lines.
pub fn before_cut(listing: &Listing<'_>, i: usize, rules: Rules, r: &mut Raising<'_>)
    requires { Listed listing.now × (length listing.now.lines.now ≤ 256) × (i < length listing.now.lines.now)
        × Kept (bare_listing listing.now) r.old }
    ensures cautioned { Cautioned (rules_of rules) (bare_listing listing.now) i r.old r.new }
    ensures lent { SameLent r.old r.new }
{
    if r.sets.len() == 0 {
        return;
    }
    raise_in(listing, i, rules, r.forms, r.seen, r.sets);
}

// After it, of the listing that it left: the form of line i is asked anew.
pub fn after_cut(listing: &Listing<'_>, i: usize, r: &mut Raising<'_>)
    requires { Listed listing.now × (length listing.now.lines.now ≤ 256) × (i < length listing.now.lines.now)
        × (is_on r.old ≡ true → Room r.old) }
    ensures kept { (lines : reference.Listing) → Kept lines r.old
        → bare_listing listing.now ≡ modify i (λ l. with_tokens (drop 2 l.tokens) l) lines
        → Kept (bare_listing listing.now) r.new × (sets_now (bare_listing listing.now) r.new ≡ sets_now lines r.old) }
    ensures lent { SameLent r.old r.new }
{
    if r.sets.len() == 0 {
        return;
    }
    r.forms[i] = flow::form_at(listing, i);
}
