// What one line decides of a family's value, and whether the lines that a jump back runs again overwrite it: `killed_first` of the Rust.
ghost use Rattle.std.specs.Prelude.{◌≡◌, ◌≤◌, ◌<◌, length};
ghost use Rattle.reference.specs.Rules.{volatile};
ghost use Rattle.reference.specs.Life.{killed_first, rerun_kills};
ghost use Rattle.ground.specs.Rules.{rules_of};
ghost use Rattle.life.specs.Liveness.{line_liveness};
ghost use Rattle.lines.specs.Texts.{Known, Lined, Listed, bare_in, bare_listing, fam_text};

use crate::touches;
use crate::touches::Touched;
use ground::rules::Rules;
use lines::fams::Fam;
use lines::texts::Listing;
use lines::words;

// What is known of the value at a line: overwritten or never read again, read, or neither yet.
#[derive(Clone, Copy)]
pub enum Liveness {
    Dead,
    Live,
    Open,
}

// A value that is followed through the lines: the family that holds it, how deep at most a line stands that ends it, the line that defines
// it, and the settings.
// Kept: that a listing has a line `start` is asked beside it, in nine contracts. It is a fact of the listing too, and for `rerun_kills`
// `killed_first` follows the value through a part of the lines, in which `start` is no place: a struct of both could not ask it.
#[derive(Clone, Copy)]
pub struct Followed {
    pub family: Fam,
    pub indent: u64,
    pub start: usize,
    pub rules: Rules,
}

// A line that reads the value makes it Live, one that overwrites it, at most `v.indent` deep, Dead.
pub fn liveness_at(listing: &Listing<'_>, l: u64, v: Followed) -> Liveness
    requires { Lined listing.now.texts listing.now.tokens.now l × Known listing.now.texts v.family }
    ensures { result ≡ line_liveness (fam_text listing.now.texts v.family) v.indent (volatile (rules_of v.rules))
        (bare_in listing.now.texts listing.now.tokens.now l) }
{
    match touches::touch(
        &listing.texts,
        words::line_of(listing.tokens, l),
        v.family,
        v.rules,
    ) {
        Touched::Use(_) => Liveness::Live,
        Touched::Kill if words::indent(l) <= v.indent => Liveness::Dead,
        Touched::Kill | Touched::Nothing => Liveness::Open,
    }
}

// Whether the value is overwritten, at most `v.indent` deep, before any read in the lines.
pub fn killed_first(listing: &Listing<'_>, v: Followed) -> bool
    requires { Listed listing.now × Known listing.now.texts v.family }
    ensures { result ≡ killed_first (bare_listing listing.now)
        (fam_text listing.now.texts v.family) v.indent (volatile (rules_of v.rules)) }
{
    for l in listing.lines {
        match liveness_at(listing, *l, v) {
            Liveness::Dead => return true,
            Liveness::Live => return false,
            Liveness::Open => {}
        }
    }
    false
}

// A jump back to behind line `to`, at this indent, runs the lines up to the definition again: whether the value is
// overwritten there before any read.
pub fn rerun_kills(listing: &Listing<'_>, to: usize, indent: u64, v: Followed) -> bool
    requires { Listed listing.now × Known listing.now.texts v.family × (to ≤ v.start)
        × (v.start < length listing.now.lines.now) × (indent < 64) }
    ensures { result ≡ rerun_kills (bare_listing listing.now)
        (fam_text listing.now.texts v.family) v.start (volatile (rules_of v.rules)) to indent }
{
    let from = to + 1;
    let end = v.start + 1;
    let again = Followed {
        indent: indent + 1,
        ..v
    };
    killed_first(
        &Listing {
            lines: &listing.lines[from..end],
            ..*listing
        },
        again,
    )
}
