// Whether a call or a read moves with a joined expression, and whether the line groups as it did.
#![tactic(auto, using(laws::proofs::Std::tests_of_std))]

ghost use Rattle.std.specs.Prelude.{ℕ, ◌≡◌, ◌<◌, take, length};
ghost use Rattle.reference.specs.Lists.{any};
ghost use Rattle.reference.specs.Listing.{Listing};
ghost use Rattle.cautions.specs.Uses.{moves_call, moves_read, is_address, groups};
ghost use Rattle.cautions.specs.Values.{world, changeable, rest, acts_beside, is_spared};
ghost use Rattle.ground.specs.Rules.{rules_of};
ghost use Rattle.reference.specs.Rules.{volatile};
ghost use Rattle.reference.specs.Control.{not, ◌and◌, ◌or◌};
ghost use Rattle.reference.specs.Text.{contains};
ghost use Rattle.reference.specs.Join.{is_bracketed, text_before, text_after};
ghost use Rattle.cautions.specs.Texts.{frame, loose, outside};
ghost use Rattle.usefacts.specs.Uses.{Ready, asked, line_in, expr_in};

use crate::uses::{Joining, is_whole};
use crate::{reads, rest, sides};
use ground::kinds;
use lines::{shapes, words};

// The kind of an Address, which the cleaner does not ask about.
const ADDRESS: u64 = 5;

// Whether a call may change what the line reads beside the use.
#[tactic(auto, using(crate::proofs::Moving::rested))]
fn is_rest_changeable(j: &Joining<'_>, u: usize) -> bool
    requires { Ready j.now × (u < length j.now.line.now) }
    ensures { result ≡ changeable (volatile (rules_of j.now.rules)) (rest (line_in j.now) u) }
{
    let r = rest::rest_of(&j.texts, j.line, u);
    rest::is_changeable(&j.texts, &r, j.rules)
}

// Whether the line reads memory beside the use.
#[tactic(auto, using(crate::proofs::Moving::rested))]
fn is_rest_world(j: &Joining<'_>, u: usize) -> bool
    requires { Ready j.now × (u < length j.now.line.now) }
    ensures { result ≡ world (rest (line_in j.now) u) }
{
    let r = rest::rest_of(&j.texts, j.line, u);
    rest::is_world(&j.texts, &r)
}

// Whether the line makes a call, and not just one around the use.
pub(crate) fn acts_beside(j: &Joining<'_>, u: usize) -> bool
    requires { Ready j.now × (u < length j.now.line.now) }
    ensures { result ≡ acts_beside (line_in j.now) u }
{
    crate::acts::acts_beside(&j.texts, j.line, u)
}

// Whether a call is made among other reads and calls of the line, or under its condition.
#[tactic(auto, using(crate::proofs::Moving::calling))]
pub(crate) fn moves_call(j: &Joining<'_>, u: usize) -> bool
    requires { Ready j.now × (u < length j.now.line.now) }
    ensures { result ≡ asked moves_call j.now u }
{
    if !shapes::has_call(&j.texts, j.expr) {
        return false;
    }
    if acts_beside(j, u) {
        return true;
    }
    if j.guarded {
        return true;
    }
    is_rest_changeable(j, u)
}

// Whether the expression begins with an address.
#[tactic(auto, using(crate::proofs::Moving::addresses))]
fn is_address(j: &Joining<'_>, u: usize) -> bool
    requires { Ready j.now }
    ensures { result ≡ asked is_address j.now u }
{
    if j.expr.len() == 0 {
        return false;
    }
    let kind = words::kind(j.expr[0]);
    if kind == ADDRESS {
        return true;
    }
    if kind == kinds::PUNCT {
        return text::ends(words::text(&j.texts, j.expr[0]), b"&");
    }
    false
}

// Whether a read comes beside a call.
#[tactic(auto, using(laws::proofs::Scans::tests))]
fn is_read_beside(j: &Joining<'_>, u: usize) -> bool
    requires { Ready j.now × (u < length j.now.line.now) }
    ensures { result ≡ (changeable (volatile (rules_of j.now.rules)) (expr_in j.now) and acts_beside (line_in j.now) u) }
{
    reads::is_changeable(&j.texts, j.expr, j.rules) && acts_beside(j, u)
}

// Whether a read moves: it comes beside a call, or is one of memory that comes beside another, or behind one of the lines passed over,
// which `passed` tells, or under a condition.
#[tactic(auto, using(crate::proofs::Moving::reading))]
pub(crate) fn moves_read(j: &Joining<'_>, u: usize, passed: bool) -> bool
    requires { Ready j.now × (u < length j.now.line.now) }
    ensures { (lines : Listing) → passed ≡ any (λ l. world l.tokens) lines → result ≡ asked moves_read j.now u lines }
{
    if is_read_beside(j, u) {
        return true;
    }
    if !reads::is_world(&j.texts, j.expr) {
        return false;
    }
    if j.guarded {
        return true;
    }
    if is_rest_world(j, u) {
        return true;
    }
    passed
}

// Whether a comma stands in the expression outside brackets.
fn has_comma(j: &Joining<'_>) -> bool
    requires { Ready j.now }
    ensures { result ≡ contains (outside 0 (frame (expr_in j.now))) 44 }
{
    flow::frame_of(&j.texts, j.expr).comma
}

// Whether the use stands between delimiters that spare brackets, or is all that is returned.
fn is_spared(j: &Joining<'_>, u: usize) -> bool
    requires { Ready j.now × (u < length j.now.line.now) }
    ensures { result ≡ is_spared (text_before (line_in j.now) u) (text_after (line_in j.now) u) }
{
    let before = sides::text_before(&j.texts, j.line, u);
    let behind = sides::text_after(&j.texts, j.line, u);
    sides::is_spared(before, behind)
}

// Whether the expression gets brackets where it needs them.
#[tactic(auto, using(crate::proofs::Moving::binding))]
fn is_bound(j: &Joining<'_>) -> bool
    requires { Ready j.now }
    ensures { result ≡ (is_bracketed (rules_of j.now.rules) (expr_in j.now) or not (loose (expr_in j.now))) }
{
    if j.bracketed {
        return true;
    }
    !flow::is_loose(&j.texts, j.expr)
}

// Whether a comma stays inside brackets, an address out of sums, and what gets no brackets needs none.
#[tactic(auto, using(crate::proofs::Moving::grouping))]
pub(crate) fn groups(j: &Joining<'_>, u: usize) -> bool
    requires { Ready j.now × (u < length j.now.line.now) }
    ensures { result ≡ asked groups j.now u }
{
    if !is_spared(j, u) {
        if is_address(j, u) {
            return false;
        }
        return is_bound(j);
    }
    if has_comma(j) {
        return false;
    }
    if is_whole(j, u) {
        return true;
    }
    !is_address(j, u)
}
