// Whether a joined expression keeps the width and the sign that the register gave its value.
#![tactic(auto, using(laws::proofs::Std::tests_of_std))]

ghost use Rattle.std.specs.Prelude.{◌≡◌, ◌<◌, ◌≤◌, min, eqb, length};
ghost use Rattle.reference.specs.Control.{◌and◌};
ghost use Rattle.reference.specs.Options.{option_of};
ghost use Rattle.reference.specs.Text.{bytes, ◌≟◌};
ghost use Rattle.reference.specs.Join.{lone_number};
ghost use Rattle.cautions.specs.Uses.{widths, target_cuts, number_fits, width_kept, sign_lost, changes_width};
ghost use Rattle.ground.specs.Rules.{rules_of};
ghost use Rattle.usefacts.specs.Uses.{Ready, asked, line_in, expr_in, fam_in};
ghost use Rattle.usefacts.specs.Uses.{is_right_side, first_number, fits_widths, is_signed, widens, call_kept, is_computed, own_kept};
ghost use Rattle.usefacts.specs.Uses.{value_kept};

use crate::uses::{Joining, assigned, beside_narrower, is_whole, use_lowest, used};
use crate::{constants, sides, widths};
use ground::kinds;
use lines::{fams, words};

// Whether the use is all of a right side.
#[tactic(auto, using(laws::proofs::Scans::tests), unfolding(crate::specs::Uses::is_right_side))]
fn is_right_side(j: &Joining<'_>, u: usize) -> bool
    requires { Ready j.now × (u < length j.now.line.now) }
    ensures { result ≡ is_right_side (line_in j.now) u }
{
    let before = sides::text_before(&j.texts, j.line, u);
    let behind = sides::text_after(&j.texts, j.line, u);
    text::same(before, b" = ") && text::same(behind, b";") && u == 2
}

// The lesser of both widths.
#[tactic(auto, using(crate::proofs::Keeping::lesser))]
fn least(j: &Joining<'_>, u: usize) -> u64
    requires { Ready j.now × (u < length j.now.line.now) }
    ensures is { result ≡ min (asked widths j.now u).0 (asked widths j.now u).1 }
    ensures few { result ≤ 64 }
{
    let a = assigned(j);
    let b = used(j, u);
    if a < b {
        return a;
    }
    b
}

// Whether the use is all of a right side, and the target cuts it as the register did.
#[tactic(auto, using(crate::proofs::Keeping::cutting))]
fn target_cuts(j: &Joining<'_>, u: usize) -> bool
    requires { Ready j.now × (u < length j.now.line.now) }
    ensures { result ≡ asked target_cuts j.now u }
{
    if !is_right_side(j, u) {
        return false;
    }
    match fams::fam_of(&j.texts, j.line[0]) {
        Some(n) => n.width <= least(j, u),
        None => false,
    }
}

// Whether a text has an operator before which C asks for the sign.
fn is_signed(s: &[u8]) -> bool
    ensures { result ≡ is_signed s.now }
{
    s.iter().any(|b| text::has_byte(b"<>/%", *b))
}

// Whether a read or cast, of C's unsigned types, stands beside such an operator, where the register had no sign.
#[tactic(auto, using(crate::proofs::Keeping::signs))]
fn sign_lost(j: &Joining<'_>, u: usize) -> bool
    requires { Ready j.now × (u < length j.now.line.now) }
    ensures { result ≡ asked sign_lost j.now u }
{
    if !widths::begins_with_keyword(&j.texts, j.expr) {
        return false;
    }
    let before = sides::text_before(&j.texts, j.line, u);
    if text::same(before, b"(unsigned)") {
        return false;
    }
    if is_signed(before) {
        return true;
    }
    is_signed(sides::text_after(&j.texts, j.line, u))
}

// The number that the expression begins with.
#[tactic(auto, using(crate::proofs::Keeping::firsts))]
fn first_number(j: &Joining<'_>) -> Option<i64>
    requires { Ready j.now }
    ensures { option_of result ≡ first_number (rules_of j.now.rules).edition (expr_in j.now) }
{
    if j.expr.len() == 0 {
        return None;
    }
    numbers::read_number(j.rules.edition, words::text(&j.texts, j.expr[0]))
}

// Whether the register was assigned and used at 64 bits.
#[tactic(auto, using(laws::proofs::Scans::tests))]
fn is_full(j: &Joining<'_>, u: usize) -> bool
    requires { Ready j.now × (u < length j.now.line.now) }
    ensures { result ≡ (eqb (asked widths j.now u).0 64 and eqb (asked widths j.now u).1 64) }
{
    assigned(j) == 64 && used(j, u) == 64
}

// Whether a register of both widths held the number n.
#[tactic(auto, using(crate::proofs::Keeping::fitting))]
fn fits_widths(j: &Joining<'_>, u: usize, n: i64) -> bool
    requires { Ready j.now × (u < length j.now.line.now) }
    ensures { result ≡ fits_widths (asked widths j.now u) n }
{
    if is_full(j, u) {
        return true;
    }
    if assigned(j) < 32 {
        return false;
    }
    constants::fits(least(j, u), n)
}

// Whether the register held the number that the expression begins with.
#[tactic(auto, using(crate::proofs::Keeping::numbers))]
fn number_fits(j: &Joining<'_>, u: usize) -> bool
    requires { Ready j.now × (u < length j.now.line.now) }
    ensures { result ≡ asked number_fits j.now u }
{
    let Some(n) = first_number(j) else {
        return false;
    };
    if beside_narrower(j, u) {
        return false;
    }
    fits_widths(j, u, n)
}

// Whether a 32-bit value is handed on whole as one of 64 bits.
#[tactic(auto, using(laws::proofs::Scans::tests), unfolding(crate::specs::Uses::widens))]
fn widens(j: &Joining<'_>, u: usize) -> bool
    requires { Ready j.now × (u < length j.now.line.now) }
    ensures { result ≡ asked widens j.now u }
{
    assigned(j) == 32
        && used(j, u) == 64
        && widths::natural(&j.texts, j.expr, j.rules) == 32
        && is_whole(j, u)
}

// Whether the register is that of a call's result.
#[tactic(auto, using(crate::proofs::Keeping::results))]
fn is_result(j: &Joining<'_>) -> bool
    requires { Ready j.now }
    ensures { result ≡ ((fam_in j.now).name ≟ bytes "rax") }
{
    fams::same_family(&j.texts, j.name.family, 0)
}

// Whether a call's value has the register's width.
#[tactic(auto, using(crate::proofs::Keeping::calls))]
fn call_kept(j: &Joining<'_>, u: usize) -> bool
    requires { Ready j.now × (u < length j.now.line.now) }
    ensures { result ≡ asked call_kept j.now u }
{
    if assigned(j) == widths::full(j.rules) {
        return true;
    }
    if assigned(j) < 32 {
        return false;
    }
    is_result(j)
}

// Whether C computes the expression at its own width.
#[tactic(auto, using(crate::proofs::Keeping::computing))]
fn is_computed(j: &Joining<'_>, own: u64) -> bool
    requires { Ready j.now }
    ensures { result ≡ is_computed own (expr_in j.now) }
{
    if own == 64 {
        return true;
    }
    if widths::is_plain(&j.texts, j.expr) {
        return true;
    }
    own == 32 && !constants::has_wild(&j.texts, j.expr)
}

// Whether the expression's own width is the register's, and C computes it at that.
#[tactic(auto, using(crate::proofs::Keeping::owning))]
fn own_kept(j: &Joining<'_>, u: usize) -> bool
    requires { Ready j.now × (u < length j.now.line.now) }
    ensures { result ≡ asked own_kept j.now u }
{
    let own = widths::natural(&j.texts, j.expr, j.rules);
    if own != assigned(j) {
        return false;
    }
    is_computed(j, own)
}

// Whether the expression is a lone number.
#[tactic(auto, using(crate::proofs::Keeping::lone))]
pub(crate) fn is_lone(j: &Joining<'_>) -> bool
    ensures { result ≡ lone_number (expr_in j.now) }
{
    if j.expr.len() == 1 {
        return words::kind(j.expr[0]) == kinds::NUMBER;
    }
    false
}

// Whether the width of another expression than a number or a truth value is the register's.
#[tactic(auto, using(crate::proofs::Keeping::other))]
fn value_kept(j: &Joining<'_>, u: usize) -> bool
    requires { Ready j.now × (u < length j.now.line.now) }
    ensures { result ≡ asked value_kept j.now u }
{
    if assigned(j) != used(j, u) {
        return widens(j, u);
    }
    if widths::is_lone_call(&j.texts, j.expr) {
        return call_kept(j, u);
    }
    own_kept(j, u)
}

// Whether the expression's width is the register's.
#[tactic(auto, using(crate::proofs::Keeping::kept))]
fn width_kept(j: &Joining<'_>, u: usize) -> bool
    requires { Ready j.now × (u < length j.now.line.now) }
    ensures { result ≡ asked width_kept j.now u }
{
    if is_lone(j) {
        return number_fits(j, u);
    }
    if j.truth {
        return is_whole(j, u);
    }
    value_kept(j, u)
}

// Whether the value is computed at another width or sign than the register's.
#[tactic(auto, using(crate::proofs::Keeping::changing))]
pub(crate) fn changes_width(j: &Joining<'_>, u: usize) -> bool
    requires { Ready j.now × (u < length j.now.line.now) }
    ensures { result ≡ asked changes_width j.now u }
{
    if j.name.lowest != use_lowest(&j.texts, j.line, u) {
        return true;
    }
    if sign_lost(j, u) {
        return true;
    }
    if target_cuts(j, u) {
        return false;
    }
    !width_kept(j, u)
}
