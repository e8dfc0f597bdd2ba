// What a line tells before an expression is put into it: the first part of its cautions, over all its uses.
#![tactic(auto, using(laws::proofs::Std::tests_of_std))]

ghost use Rattle.std.specs.Prelude.{◌≡◌, ◌<◌, ◌++◌, length, map};
ghost use Rattle.reference.specs.Control.{◌and◌};
ghost use Rattle.reference.specs.Lists.{any, count};
ghost use Rattle.reference.specs.Listing.{is, Number, Listing};
ghost use Rattle.reference.specs.Join.{substitute};
ghost use Rattle.cautions.specs.Kinds.{◌given◌, union};
ghost use Rattle.cautions.specs.Uses.{places_of};
ghost use Rattle.cautions.specs.Values.{world};
ghost use Rattle.ground.specs.Rules.{rules_of};
ghost use Rattle.usefacts.specs.Split.{before_of, is_wild, use_kinds, use_sums};
ghost use Rattle.usefacts.specs.Uses.{Ready, asked, expr_in, fam_in, is_use, line_in};

use crate::parts::Before;
use crate::uses::Joining;
use crate::{constants, kept, usekinds};
use lines::fams;

// Whether the token at u is a use.
#[tactic(auto, using(crate::proofs::Placing::use_at))]
fn is_use(j: &Joining<'_>, u: usize) -> bool
    requires { Ready j.now × (u < length j.now.line.now) }
    ensures { result ≡ is_use (fam_in j.now).name (line_in j.now) u }
{
    fams::is_of(&j.texts, j.line[u], j.name.family)
}

// The kinds of the use at u; none where the token is no use.
#[tactic(auto, using(crate::proofs::Placing::kinds_here))]
fn kinds_at(j: &Joining<'_>, u: usize, passed: bool) -> u16
    requires { Ready j.now × (u < length j.now.line.now) }
    ensures { (lines : Listing) → passed ≡ any (λ l. world l.tokens) lines
        → result ≡ asked use_kinds j.now u lines given is_use (fam_in j.now).name (line_in j.now) u }
{
    if !is_use(j, u) {
        return 0;
    }
    usekinds::use_kinds(j, u, passed)
}

// The kinds of all uses.
fn kinds_of(j: &Joining<'_>, passed: bool) -> u16
    requires { Ready j.now }
    ensures { (lines : Listing) → passed ≡ any (λ l. world l.tokens) lines
        → result ≡ union (map (λ u. asked use_kinds j.now u lines) (places_of (fam_in j.now).name 0 (line_in j.now))) }
{
    let mut kinds = 0;
    for u in 0..j.line.len() {
        kinds |= kinds_at(j, u, passed);
    }
    kinds
}

// Whether the token at u is a use where numbers alone are computed, and a narrow register was before.
#[tactic(auto, using(laws::proofs::Scans::tests))]
fn sums_at(j: &Joining<'_>, u: usize) -> bool
    requires { Ready j.now × (u < length j.now.line.now) }
    ensures { result ≡ (is_use (fam_in j.now).name (line_in j.now) u and asked use_sums j.now u) }
{
    is_use(j, u) && usekinds::use_sums(j, u)
}

// Whether one of the tokens is such a use.
fn has_sums(j: &Joining<'_>) -> bool
    requires { Ready j.now }
    ensures { result ≡ any (asked use_sums j.now) (places_of (fam_in j.now).name 0 (line_in j.now)) }
{
    for u in 0..j.line.len() {
        if sums_at(j, u) {
            return true;
        }
    }
    false
}

// Whether the line or the expression has a Number that is not tame.
#[tactic(auto, using(crate::proofs::Placing::wilds))]
fn has_wild(j: &Joining<'_>) -> bool
    requires { Ready j.now }
    ensures { result ≡ any is_wild (line_in j.now ++ expr_in j.now) }
{
    if constants::has_wild(&j.texts, j.line) {
        return true;
    }
    constants::has_wild(&j.texts, j.expr)
}

// How many Numbers the line has when each use is the expression.
fn count_joined(j: &Joining<'_>) -> usize
    requires { Ready j.now }
    ensures { result ≡ count (is Number) (substitute (fam_in j.now).name (expr_in j.now) (line_in j.now)) }
{
    let own = constants::count_numbers(&j.texts, j.line);
    let more = constants::count_numbers(&j.texts, j.expr);
    own + fams::count_of(&j.texts, j.line, j.name.family) * more
}

// What the line tells; `passed` says whether one of the lines that the expression passes reads memory.
#[tactic(auto, using(crate::proofs::Placing::before_by))]
pub fn before_line(j: &Joining<'_>, passed: bool) -> Before
    requires { Ready j.now }
    ensures { (lines : Listing) → passed ≡ any (λ l. world l.tokens) lines
        → result ≡ before_of (rules_of j.now.rules) (fam_in j.now) (expr_in j.now) (line_in j.now) lines }
{
    Before {
        kinds: kinds_of(j, passed),
        sums: has_sums(j),
        lone: kept::is_lone(j),
        wild: has_wild(j),
        numbers: count_joined(j),
    }
}
