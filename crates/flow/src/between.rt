// What stands between an assignment and the last use that it is joined into.
ghost use Rattle.std.specs.Prelude.{◌≡◌, ◌≤◌, ◌<◌, List, length};
ghost use Rattle.std.proofs.Math.Seq.{slice};
ghost use Rattle.reference.specs.Lists.{any};
ghost use Rattle.reference.specs.Listing.{Token, ◌at◌};
ghost use Rattle.reference.specs.Names as N;
ghost use Rattle.reference.specs.Rules as R;
ghost use Rattle.cautions.specs.Forms.{places, ways, is_dark};
ghost use Rattle.cautions.specs.Joins.{is_odd, past_call};
ghost use Rattle.flow.specs.Between.{enters, calls};
ghost use Rattle.flow.specs.Ways.{Tabled};
ghost use Rattle.ground.specs.Rules.{rules_of};
ghost use Rattle.lines.specs.Texts.{Known, Listed, bare_listing, fam_text};

use crate::reaching;
use crate::ways::FormedListing;
use ground::rules::Rules;
use lines::fams::{self, Fam};
use lines::texts::Listing;
use lines::{shapes, words};

// Whether one of the lines from a on, above line c, is not looked into.
fn has_dark(g: &FormedListing<'_>, a: usize, c: usize) -> bool
    requires { Tabled g.now × (c ≤ length g.now.listing.lines.now) }
    ensures { result ≡ any (is_dark (bare_listing g.now.listing) (ways (bare_listing g.now.listing)))
        (slice a c (places (bare_listing g.now.listing))) }
{
    for k in a..c {
        if reaching::is_dark(g, k) {
            return true;
        }
    }
    false
}

// Whether control may come to one of them from elsewhere than from the line above.
fn has_entry(g: &FormedListing<'_>, a: usize, c: usize) -> bool
    requires { Tabled g.now × (c ≤ length g.now.listing.lines.now) }
    ensures { result ≡ any enters (slice a c (bare_listing g.now.listing)) }
{
    for k in a..c {
        if g.forms[k].is_entered {
            return true;
        }
    }
    false
}

// Whether line k calls.
fn calls_at(listing: &Listing<'_>, k: usize) -> bool
    requires { Listed listing.now × (k < length listing.now.lines.now) }
    ensures { result ≡ calls (bare_listing listing.now at k) }
{
    let line = words::line_of(listing.tokens, listing.lines[k]);
    shapes::has_call(&listing.texts, line)
}

// Whether one of the lines from a on, above line c, calls.
fn has_call(listing: &Listing<'_>, a: usize, c: usize) -> bool
    requires { Listed listing.now × (c ≤ length listing.now.lines.now) }
    ensures { result ≡ any calls (slice a c (bare_listing listing.now)) }
{
    for k in a..c {
        if calls_at(listing, k) {
            return true;
        }
    }
    false
}

// Whether a line from i to the last use is not looked into, or control may come to one of them from elsewhere.
pub fn is_odd(g: &FormedListing<'_>, i: usize, last: usize) -> bool
    requires { Tabled g.now × (i ≤ last) × (last < length g.now.listing.lines.now) }
    ensures { (rules : R.Rules) (f : N.Fam) (expr : List Token)
        → result ≡ is_odd rules (bare_listing g.now.listing) (ways (bare_listing g.now.listing)) i f expr last }
{
    if has_entry(g, i + 1, last + 1) {
        return true;
    }
    if has_dark(g, i, last + 1) {
        return true;
    }
    reaching::hangs(g, i)
}

// Whether a call stands between line i and the last use, and may overwrite the register.
pub fn past_call(listing: &Listing<'_>, i: usize, last: usize, f: Fam, rules: Rules) -> bool
    requires { Listed listing.now × (i ≤ last) × (last < length listing.now.lines.now) × Known listing.now.texts f }
    ensures { (n : N.Fam) (expr : List Token) → n.name ≡ fam_text listing.now.texts f
        → result ≡ past_call (rules_of rules) (bare_listing listing.now) (ways (bare_listing listing.now)) i n expr last }
{
    if !fams::is_volatile(&listing.texts, f, rules) {
        return false;
    }
    has_call(listing, i + 1, last)
}
