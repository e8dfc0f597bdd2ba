// Jumps: what a `while` and a `goto` of a line after a definition let the value's scan do.
ghost use Rattle.std.specs.Prelude.{◌≡◌, ◌<◌, length, get_or};
ghost use Rattle.reference.specs.Options.{option_of};
ghost use Rattle.reference.specs.Lists.{last_position};
ghost use Rattle.reference.specs.Text.{◌≟◌};
ghost use Rattle.reference.specs.Rules.{volatile};
ghost use Rattle.reference.specs.Life.{lookup, is_do, goto_target, while_passes, goto_passes};
ghost use Rattle.ground.specs.Rules.{rules_of};
ghost use Rattle.lines.specs.Lines.{part_of};
ghost use Rattle.life.specs.Jumps.{jump};
ghost use Rattle.life.specs.Labels.{Labelled, labels_of};
ghost use Rattle.lines.specs.Texts.{Known, Lined, Listed, Points, bare_in, bare_listing, fam_text, text_of, tokens_of, words_at};

use crate::labels::LabelledListing;
use crate::liveness::{Followed, rerun_kills};
use crate::touches;
use lines::texts::Listing;
use lines::traits::Kw;
use lines::{shapes, words};

// ---- `while`

// Whether a line has this indent and the Keyword `do`.
fn is_do(listing: &Listing<'_>, l: u64, indent: u64) -> bool
    requires { Lined listing.now.texts listing.now.tokens.now l }
    ensures { result ≡ is_do indent (bare_in listing.now.texts listing.now.tokens.now l) }
{
    words::indent(l) == indent
        && shapes::has_kw(&listing.texts, words::line_of(listing.tokens, l), Kw::Do)
}

// The last of the lines with this indent and the Keyword `do`.
fn do_before(listing: &Listing<'_>, indent: u64) -> Option<usize>
    requires { Listed listing.now }
    ensures { option_of result ≡ last_position (is_do indent) (bare_listing listing.now) }
{
    listing
        .lines
        .iter()
        .rposition(|l| is_do(listing, *l, indent))
}

// At line w, which has a `while`: the back edge enters the loop's head again.
pub fn while_passes(listing: &Listing<'_>, w: usize, v: Followed) -> bool
    requires { Listed listing.now × Known listing.now.texts v.family
        × (w < length listing.now.lines.now) × (v.start < length listing.now.lines.now) }
    ensures { result ≡ while_passes (bare_listing listing.now)
        (fam_text listing.now.texts v.family) v.start (volatile (rules_of v.rules)) w
        (bare_in listing.now.texts listing.now.tokens.now (get_or listing.now.lines.now w 0)) }
{
    let l = listing.lines[w];
    if touches::uses(
        &listing.texts,
        words::line_of(listing.tokens, l),
        v.family,
        v.rules,
    ) {
        return false;
    }
    let indent = words::indent(l);
    let Some(d) = do_before(
        &Listing {
            lines: &listing.lines[..w],
            ..*listing
        },
        indent,
    ) else {
        return false; // a loop whose head is not known
    };
    v.start <= d || rerun_kills(listing, d, indent, v)
}

// ---- `goto`

// Whether the label of line p has the name that the token word w has for its text.
fn is_named(listing: &Listing<'_>, p: usize, w: u64) -> bool
    requires { Listed listing.now × Points listing.now.texts w × (p < length listing.now.lines.now)
        × (0 < length (words_at listing.now p)) }
    ensures { result ≡ (text_of listing.now.texts (get_or (words_at listing.now p) 0 0) ≟ text_of listing.now.texts w) }
{
    let line = words::line_of(listing.tokens, listing.lines[p]);
    text::same(
        words::text(&listing.texts, line[0]),
        words::text(&listing.texts, w),
    )
}

// The line of the label with the name that the token word w has for its text; of equal names the last.
fn label_named(scope: &LabelledListing<'_>, w: u64) -> Option<usize>
    requires { Labelled scope.now × Points scope.now.listing.texts w }
    ensures { option_of result ≡ lookup (labels_of scope.now) (text_of scope.now.listing.texts w) }
{
    scope
        .labels
        .iter()
        .rev()
        .copied()
        .find(|p| is_named(&scope.listing, *p, w))
}

// Where the `goto` of a line jumps to, if it has one: the line of its label, if that is known.
fn goto_target(scope: &LabelledListing<'_>, l: u64) -> Option<Option<usize>>
    requires { Labelled scope.now × Lined scope.now.listing.texts scope.now.listing.tokens.now l }
    ensures { jump result ≡ goto_target (tokens_of scope.now.listing.texts (part_of scope.now.listing.tokens.now l))
        (labels_of scope.now) }
{
    let line = words::line_of(scope.listing.tokens, l);
    let g = shapes::kw_at(&scope.listing.texts, line, Kw::Goto)?;
    let Some(s) = shapes::symbol_from(line, g + 1) else {
        return Some(None);
    };
    Some(label_named(scope, line[s]))
}

// At a line with a `goto` or none: a jump back above the definition runs it again.
pub fn goto_passes(scope: &LabelledListing<'_>, l: u64, v: Followed) -> bool
    requires { Labelled scope.now × Lined scope.now.listing.texts scope.now.listing.tokens.now l
        × Known scope.now.listing.texts v.family × (v.start < length scope.now.listing.lines.now) }
    ensures { result ≡ goto_passes (bare_listing scope.now.listing)
        (fam_text scope.now.listing.texts v.family) v.start (volatile (rules_of v.rules))
        (labels_of scope.now) (bare_in scope.now.listing.texts scope.now.listing.tokens.now l) }
{
    match goto_target(scope, l) {
        None => true,
        Some(None) => false,
        Some(Some(at)) => {
            v.start < at
                || rerun_kills(
                    &scope.listing,
                    at,
                    words::indent(scope.listing.lines[at]),
                    v,
                )
        }
    }
}
