// Whether a register's value may be handed over unseen, along the lines that it reaches: to a call that does not spell its arguments, or to
// the caller.
ghost use Rattle.std.specs.Prelude.{◌≡◌, ◌<◌, suc, length};
ghost use Rattle.reference.specs.Control.{not, ◌and◌, ◌or◌};
ghost use Rattle.reference.specs.Lists.{any};
ghost use Rattle.reference.specs.Listing.{◌at◌};
ghost use Rattle.reference.specs.Shapes.{is_kw};
ghost use Rattle.reference.specs.Text.{bytes, has, starts_with};
ghost use Rattle.cautions.specs.Forms.{reached_from};
ghost use Rattle.cautions.specs.Joins.{first_arguments, is_void, for_caller, is_handed};
ghost use Rattle.flow.specs.Handed.{is_pair, spells_none, unspelt_at, is_result};
ghost use Rattle.flow.specs.Ways.{Tabled};
ghost use Rattle.ground.specs.Rules.{rules_of};
ghost use Rattle.lines.specs.Texts.{Holds, Known, Listed, Points, bare_listing, fam_text, token_of, tokens_of};

use crate::opaque;
use crate::ways::FormedListing;
use ground::kinds;
use ground::rules::Rules;
use lines::fams::{self, Fam};
use lines::texts::{Listing, Texts};
use lines::{shapes, words};

// Rows of the table of names.
const RAX: Fam = 0;

const RCX: Fam = 2;

const RDX: Fam = 3;

const RDI: Fam = 5;

// Whether a family is a stack slot.
#[tactic(auto, using(crate::proofs::Handing::slots))]
pub fn is_slot(texts: &Texts<'_>, f: Fam) -> bool
    requires { Known texts.now f }
    ensures { result ≡ starts_with (fam_text texts.now f) (bytes "var_") }
{
    if f < 8 {
        return false;
    }
    text::starts(words::text(texts, f), b"var_")
}

// ---- to a call

// Whether a call may find an argument in the family, without spelling it.
fn is_first_argument(texts: &Texts<'_>, f: Fam, rules: Rules) -> bool
    requires { Known texts.now f }
    ensures { result ≡ has (first_arguments rules.convention) (fam_text texts.now f) }
{
    if rules.convention == 0 {
        return f == RCX || f == RDX;
    }
    if rules.convention == 1 {
        return f == RDI;
    }
    f == RCX
}

// Whether a token has a `()`.
#[tactic(auto, using(lines::proofs::shapes::Tests::token_tests), unfolding(crate::specs::Handed::is_pair))]
fn is_pair(texts: &Texts<'_>, w: u64) -> bool
    requires { Points texts.now w }
    ensures { result ≡ is_pair (token_of texts.now w) }
{
    words::kind(w) == kinds::PUNCT && opaque::holds(b"()", words::text(texts, w))
}

fn has_pair(texts: &Texts<'_>, line: &[u64]) -> bool
    requires { Holds texts.now line.now }
    ensures { result ≡ any is_pair (tokens_of texts.now line.now) }
{
    line.iter().any(|w| is_pair(texts, *w))
}

// Whether a line has a call with no arguments spelt; in 32-bit code, any call.
#[tactic(auto, using(crate::proofs::Handing::unspelt))]
fn spells_none(texts: &Texts<'_>, line: &[u64], rules: Rules) -> bool
    requires { Holds texts.now line.now }
    ensures { result ≡ spells_none (rules_of rules) (tokens_of texts.now line.now) }
{
    if !shapes::has_call(texts, line) {
        return false;
    }
    if rules.convention == 0 {
        return true;
    }
    has_pair(texts, line)
}

// The same of line k.
fn unspelt_at(g: &FormedListing<'_>, k: usize, rules: Rules) -> bool
    requires { Tabled g.now × (k < length g.now.listing.lines.now) }
    ensures { result ≡ unspelt_at (rules_of rules) (bare_listing g.now.listing) k }
{
    let line = words::line_of(g.listing.tokens, g.listing.lines[k]);
    spells_none(&g.listing.texts, line, rules)
}

// Whether one of the lines that are reached has such a call.
fn is_passed_on(g: &FormedListing<'_>, rules: Rules, seen: &[bool]) -> bool
    requires { Tabled g.now × (length seen.now ≡ suc (length g.now.listing.lines.now)) }
    ensures { result ≡ any (unspelt_at (rules_of rules) (bare_listing g.now.listing)) (reached_from 0 seen.now) }
{
    for k in 0..g.listing.lines.len() {
        if seen[k] && unspelt_at(g, k, rules) {
            return true;
        }
    }
    false
}

// Whether the value is handed over to a call.
#[tactic(auto, using(laws::proofs::Scans::tests))]
fn to_call(g: &FormedListing<'_>, f: Fam, rules: Rules, seen: &[bool]) -> bool
    requires { Tabled g.now × Known g.now.listing.texts f × (length seen.now ≡ suc (length g.now.listing.lines.now)) }
    ensures { result ≡ (has (first_arguments rules.convention) (fam_text g.now.listing.texts f)
        and any (unspelt_at (rules_of rules) (bare_listing g.now.listing)) (reached_from 0 seen.now)) }
{
    is_first_argument(&g.listing.texts, f, rules) && is_passed_on(g, rules, seen)
}

// ---- to the caller

// Whether a token is the Keyword `void`.
#[tactic(auto, using(lines::proofs::shapes::Tests::token_tests), unfolding(reference::specs::Shapes::is_kw))]
fn is_void_word(texts: &Texts<'_>, w: u64) -> bool
    requires { Points texts.now w }
    ensures { result ≡ is_kw (bytes "void") (token_of texts.now w) }
{
    words::kind(w) == kinds::KEYWORD && text::same(words::text(texts, w), b"void")
}

// Whether the head of the listing says that nothing is returned.
fn is_void(listing: &Listing<'_>) -> bool
    requires { Listed listing.now }
    ensures { result ≡ is_void (bare_listing listing.now) }
{
    if listing.lines.is_empty() {
        return false;
    }
    let head = words::line_of(listing.tokens, listing.lines[0]);
    if head.is_empty() {
        return false;
    }
    is_void_word(&listing.texts, head[0])
}

// Whether the family has the result, and there is one.
fn is_result(listing: &Listing<'_>, f: Fam) -> bool
    requires { Listed listing.now × Known listing.now.texts f }
    ensures { result ≡ is_result (bare_listing listing.now) (fam_text listing.now.texts f) }
{
    f == RAX && !is_void(listing)
}

// Whether a caller finds the family's value: it has the result, or calls preserve it.
fn for_caller(listing: &Listing<'_>, f: Fam, rules: Rules) -> bool
    requires { Listed listing.now × Known listing.now.texts f }
    ensures { result ≡ for_caller (rules_of rules) (bare_listing listing.now) (fam_text listing.now.texts f) }
{
    if is_result(listing, f) {
        return true;
    }
    !fams::is_volatile(&listing.texts, f, rules) && !is_slot(&listing.texts, f)
}

// ---- by what is reached

// Whether one of the lines that the value reaches, of which `seen` is the table, hands it over.
pub fn is_handed(g: &FormedListing<'_>, f: Fam, rules: Rules, seen: &[bool]) -> bool
    requires { Tabled g.now × Known g.now.listing.texts f × (length seen.now ≡ suc (length g.now.listing.lines.now)) }
    ensures { result ≡ is_handed (rules_of rules) (bare_listing g.now.listing) (fam_text g.now.listing.texts f) (reached_from 0 seen.now) }
{
    if to_call(g, f, rules, seen) {
        return true;
    }
    seen[g.listing.lines.len()] && for_caller(&g.listing, f, rules)
}
