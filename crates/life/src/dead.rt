// Whether a family's value is never read again: `dead_after` of the Rust.
ghost use Rattle.std.specs.Prelude.{◌≡◌, ◌<◌, length, get_or};
ghost use Rattle.reference.specs.Text.{has};
ghost use Rattle.reference.specs.Rules.{volatile};
ghost use Rattle.reference.specs.Life.{dead_after};
ghost use Rattle.ground.specs.Rules.{rules_of};
ghost use Rattle.lines.specs.Codes.{family_number};
ghost use Rattle.life.specs.Labels.{Labelled, labels_of};
ghost use Rattle.life.specs.Liveness.{returns_at, scan_liveness, liveness_after};
ghost use Rattle.lines.specs.Texts.{Known, Lined, Listed, bare_in, bare_listing, fam_text};

use crate::jumps::{goto_passes, while_passes};
use crate::labels::LabelledListing;
use crate::liveness::{Followed, Liveness, liveness_at};
use linefacts::{fact_number, is_calling, is_transparent};
use lines::texts::Listing;
use lines::traits::Kw;
use lines::{fams, shapes, words};

// Whether a line, at most `base_indent` deep, has the Keyword `return`.
fn returns_at(listing: &Listing<'_>, l: u64, base_indent: u64) -> bool
    requires { Lined listing.now.texts listing.now.tokens.now l }
    ensures { result ≡ returns_at base_indent (bare_in listing.now.texts listing.now.tokens.now l) }
{
    words::indent(l) <= base_indent
        && shapes::has_kw(
            &listing.texts,
            words::line_of(listing.tokens, l),
            Kw::Return,
        )
}

// A line that no jump decides.
fn scan(listing: &Listing<'_>, l: u64, v: Followed) -> Liveness
    requires { Lined listing.now.texts listing.now.tokens.now l × Known listing.now.texts v.family }
    ensures { result ≡ scan_liveness (fam_text listing.now.texts v.family) v.indent (volatile (rules_of v.rules))
        (bare_in listing.now.texts listing.now.tokens.now l) }
{
    match liveness_at(listing, l, v) {
        Liveness::Dead => Liveness::Dead,
        Liveness::Live => Liveness::Live,
        Liveness::Open if returns_at(listing, l, v.indent) => Liveness::Dead,
        Liveness::Open => Liveness::Open,
    }
}

// What line w, after the definition, does to the value.
fn liveness_after(scope: &LabelledListing<'_>, w: usize, v: Followed) -> Liveness
    requires { Labelled scope.now × Known scope.now.listing.texts v.family
        × (w < length scope.now.listing.lines.now) × (v.start < length scope.now.listing.lines.now) }
    ensures { result ≡ liveness_after (bare_listing scope.now.listing)
        (fam_text scope.now.listing.texts v.family) v.indent (labels_of scope.now) v.start
        (volatile (rules_of v.rules)) w
        (bare_in scope.now.listing.texts scope.now.listing.tokens.now (get_or scope.now.listing.lines.now w 0)) }
{
    let l = scope.listing.lines[w];
    if shapes::has_kw(
        &scope.listing.texts,
        words::line_of(scope.listing.tokens, l),
        Kw::While,
    ) {
        if while_passes(&scope.listing, w, v) {
            Liveness::Open
        } else {
            Liveness::Live
        }
    } else if goto_passes(scope, l, v) {
        scan(&scope.listing, l, v)
    } else {
        Liveness::Live
    }
}

// What line w does to the value, by its facts where they tell it: a transparent line does nothing, and a calling one what calls do to the
// family. n is the family's number, and `overwritten` says whether calls overwrite it.
fn liveness_by_facts(
    scope: &LabelledListing<'_>,
    w: usize,
    v: Followed,
    n: u64,
    overwritten: bool,
) -> Liveness
    requires { Labelled scope.now × Known scope.now.listing.texts v.family
        × (w < length scope.now.listing.lines.now) × (v.start < length scope.now.listing.lines.now)
        × (n ≡ family_number (fam_text scope.now.listing.texts v.family))
        × (overwritten ≡ has (volatile (rules_of v.rules)) (fam_text scope.now.listing.texts v.family)) }
    ensures { result ≡ liveness_after (bare_listing scope.now.listing)
        (fam_text scope.now.listing.texts v.family) v.indent (labels_of scope.now) v.start
        (volatile (rules_of v.rules)) w
        (bare_in scope.now.listing.texts scope.now.listing.tokens.now (get_or scope.now.listing.lines.now w 0)) }
{
    let l = scope.listing.lines[w];
    if is_transparent(l, n) {
        return Liveness::Open;
    }
    if is_calling(l, n) {
        if overwritten && words::indent(l) <= v.indent {
            return Liveness::Dead; // by the call
        }
        return Liveness::Open;
    }
    liveness_after(scope, w, v)
}

// Whether the family's value at the end of line `from` is never read again.
pub fn dead_after(scope: &LabelledListing<'_>, from: usize, v: Followed) -> bool
    requires { Labelled scope.now × Known scope.now.listing.texts v.family
        × (from < length scope.now.listing.lines.now) × (v.start < length scope.now.listing.lines.now) }
    ensures { result ≡ dead_after (bare_listing scope.now.listing) from
        (fam_text scope.now.listing.texts v.family) v.indent (labels_of scope.now) v.start
        (volatile (rules_of v.rules)) }
{
    let n = fact_number(&scope.listing.texts, v.family);
    let overwritten = fams::is_volatile(&scope.listing.texts, v.family, v.rules);
    for w in from + 1..scope.listing.lines.len() {
        match liveness_by_facts(scope, w, v, n, overwritten) {
            Liveness::Dead => return true,
            Liveness::Live => return false,
            Liveness::Open => {}
        }
    }
    true
}
