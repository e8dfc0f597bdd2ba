// What a join leaves on the lines that it rewrote: their kinds, and the forms of the new lines. The line that was joined is gone, so line q
// is the one that was line q + 1.
ghost use Rattle.std.specs.Prelude.{◌≡◌, ◌≤◌, ◌<◌, ◌+◌, length, get_or, drop, None};
ghost use Rattle.std.specs.List.{copy_within};
ghost use Rattle.reference.specs.Listing.{◌at◌};
ghost use Rattle.cautions.specs.Kinds.{◌∪◌};
ghost use Rattle.lines.specs.Texts.{Listed, bare_listing};
ghost use Rattle.raising.specs.Noting.{kinds_told, kinds_from};
ghost use Rattle.raising.specs.Renewing.{NotedTo, Renewed, RenewedTo};

use crate::spreading::is_noted;
use flow::{LineForm, form_at};
use lines::texts::Listing;
use lines::words;
use usefacts::{Before, after_line, finish};

// The kinds of line q, by what it told before the join.
fn kinds_at(listing: &Listing<'_>, q: usize, parts: &[Option<Before>]) -> u16
    requires { Listed listing.now × (q < length listing.now.lines.now) × (length listing.now.lines.now < length parts.now) }
    ensures { result ≡ kinds_told (get_or parts.now (q + 1) None) (bare_listing listing.now at q).tokens }
{
    match parts[q + 1] {
        Some(b) => {
            let line = words::line_of(listing.tokens, listing.lines[q]);
            finish(b, after_line(&listing.texts, line))
        }
        None => 0,
    }
}

// Those of all lines; none behind line `last` told anything.
fn uses_kinds(listing: &Listing<'_>, i: usize, last: usize, parts: &[Option<Before>]) -> u16
    requires { Listed listing.now × NotedTo listing.now i last parts.now }
    ensures { result ≡ kinds_from (drop (i + 1) parts.now) (drop i (bare_listing listing.now)) }
{
    let mut kinds = 0;
    for q in i..last {
        kinds |= kinds_at(listing, q, parts);
    }
    kinds
}

// Line q gets these kinds, and its form is asked anew, if it was rewritten.
fn renew(
    listing: &Listing<'_>,
    q: usize,
    all: u16,
    parts: &[Option<Before>],
    sets: &mut [u16],
    forms: &mut [LineForm],
)
    requires { Listed listing.now × (q < length listing.now.lines.now) × (length listing.now.lines.now ≤ length sets.old)
        × (length listing.now.lines.now ≤ length forms.old) × (length listing.now.lines.now < length parts.now) }
    ensures { Renewed listing.now q all parts.now sets.old forms.old sets.new forms.new }
{
    if is_noted(parts, q + 1) {
        sets[q] |= all;
        forms[q] = form_at(listing, q);
    }
}

// So does each line from line i on; none behind line `last` told anything.
fn renew_lines(
    listing: &Listing<'_>,
    i: usize,
    last: usize,
    all: u16,
    parts: &[Option<Before>],
    sets: &mut [u16],
    forms: &mut [LineForm],
)
    requires { Listed listing.now × NotedTo listing.now i last parts.now × (length listing.now.lines.now ≤ length sets.old)
        × (length listing.now.lines.now ≤ length forms.old) }
    ensures { RenewedTo listing.now i (length listing.now.lines.now) all parts.now sets.old forms.old sets.new forms.new }
{
    for q in i..last {
        renew(listing, q, all, parts, sets, forms);
    }
}

// The items behind item i move up by one, up to item `end`, which does not; the last of these places keeps what it had.
// Kept: a loop, for the reason that join's `remove_word` gives.
fn move_up<T: Copy>(items: &mut [T], i: usize, end: usize)
    requires { (i < end) × (end ≤ length items.old) }
    ensures { items.new ≡ copy_within items.old (i + 1) end i }
{
    for k in i + 1..end {
        items[k - 1] = items[k];
    }
}

// The lines behind line i move up by one; those that were rewritten get `own`, the kinds that they told and those of line i.
// Not inlined: a cleaning that keeps no cautions is faster where this does not stand in its attempts.
#[inline(never)]
pub(crate) fn hand_on(
    listing: &Listing<'_>,
    i: usize,
    last: usize,
    own: u16,
    parts: &[Option<Before>],
    sets: &mut [u16],
    forms: &mut [LineForm],
)
    requires { Listed listing.now × NotedTo listing.now i last parts.now × (length listing.now.lines.now < length sets.old)
        × (length listing.now.lines.now < length forms.old) }
    ensures { RenewedTo listing.now i (length listing.now.lines.now)
        (own ∪ (kinds_from (drop (i + 1) parts.now) (drop i (bare_listing listing.now)) ∪ get_or sets.old i 0)) parts.now
        (copy_within sets.old (i + 1) (length listing.now.lines.now + 1) i)
        (copy_within forms.old (i + 1) (length listing.now.lines.now + 1) i) sets.new forms.new }
{
    let lines = listing.lines.len() + 1;
    let all = own | (uses_kinds(listing, i, last, parts) | sets[i]);
    move_up(sets, i, lines);
    move_up(forms, i, lines);
    renew_lines(listing, i, last, all, parts, sets, forms);
}
