// The tables of a listing whose cleaning begins: no kind on any line.
ghost use Rattle.std.specs.Prelude.{◌≡◌, ◌≤◌, true, length, take, replicate};
ghost use Rattle.cautions.specs.Joins.{none_yet};
ghost use Rattle.lines.specs.Texts.{Listed, bare_listing};
ghost use Rattle.raising.specs.Tables.{is_on, Room, Kept, SameLent, Gathered, sets_now};

use crate::noting::forget;
use crate::tables::Raising;
use flow::LineForm;
use lines::texts::Listing;

// Forgets the kinds of the first n lines.
fn clear(sets: &mut [u16], n: usize)
    requires { n ≤ length sets.old }
    ensures none { take n sets.new ≡ replicate n 0 }
    ensures long { length sets.new ≡ length sets.old }
{
    sets[..n].fill(0);
}

// Asks the form of each line of the listing.
fn gather(listing: &Listing<'_>, forms: &mut [LineForm])
    requires { Listed listing.now × (length listing.now.lines.now ≤ length forms.old) }
    ensures formed { Gathered (bare_listing listing.now) forms.new }
    ensures long { length forms.new ≡ length forms.old }
{
    let n = listing.lines.len();
    flow::gather_forms(listing, &mut forms[..n]);
}

// Makes the tables those of the listing, without a kind on any line.
pub fn begin(listing: &Listing<'_>, r: &mut Raising<'_>)
    requires { Listed listing.now × (length listing.now.lines.now ≤ 256) × (is_on r.old ≡ true → Room r.old) }
    ensures kept { Kept (bare_listing listing.now) r.new }
    ensures none { is_on r.old ≡ true → sets_now (bare_listing listing.now) r.new ≡ none_yet (bare_listing listing.now) }
    ensures lent { SameLent r.old r.new }
{
    if r.sets.len() == 0 {
        return;
    }
    clear(r.sets, listing.lines.len());
    let n = r.parts.len();
    forget(r.parts, 0, n);
    gather(listing, r.forms);
}
