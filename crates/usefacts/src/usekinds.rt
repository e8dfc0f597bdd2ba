// The kinds of caution of one use, as far as the line before the join tells them.
#![tactic(auto, using(crate::proofs::Splitting::tests))]

ghost use Rattle.std.specs.Prelude.{◌≡◌, ◌<◌, length};
ghost use Rattle.reference.specs.Control.{not, ◌and◌};
ghost use Rattle.reference.specs.Lists.{any};
ghost use Rattle.reference.specs.Listing.{Listing};
ghost use Rattle.reference.specs.Text.{has};
ghost use Rattle.reference.specs.Rules.{volatile};
ghost use Rattle.reference.specs.Join.{text_before, text_after};
ghost use Rattle.cautions.specs.Uses.{is_apart, groups};
ghost use Rattle.cautions.specs.Values.{world, acts_beside};
ghost use Rattle.ground.specs.Rules.{rules_of};
ghost use Rattle.usefacts.specs.Split.{use_kinds, use_sums};
ghost use Rattle.usefacts.specs.Uses.{Ready, asked, fam_in, line_in};

use crate::parts::given;
use crate::uses::{Joining, beside_number, used};
use crate::{kept, moves, sides};
use lines::fams;

// The kinds, as bits.
const OVERWRITTEN: u16 = 4;

const CALL_MOVED: u16 = 8;

const READ_MOVED: u16 = 16;

const OTHER_WIDTH: u16 = 32;

const OTHER_TEXT: u16 = 64;

// Whether a call of the line may overwrite the register.
#[tactic(auto, using(laws::proofs::Scans::tests))]
fn is_overwritten(j: &Joining<'_>, u: usize) -> bool
    requires { Ready j.now × (u < length j.now.line.now) }
    ensures { result ≡ (has (volatile (rules_of j.now.rules)) (fam_in j.now).name and acts_beside (line_in j.now) u) }
{
    fams::is_volatile(&j.texts, j.name.family, j.rules) && moves::acts_beside(j, u)
}

// Whether the use stands between the generator's delimiters.
fn is_apart(j: &Joining<'_>, u: usize) -> bool
    requires { Ready j.now × (u < length j.now.line.now) }
    ensures { result ≡ is_apart (text_before (line_in j.now) u) (text_after (line_in j.now) u) }
{
    let before = sides::text_before(&j.texts, j.line, u);
    let behind = sides::text_after(&j.texts, j.line, u);
    sides::is_apart(before, behind)
}

// Whether the line's text groups otherwise than the expression.
#[tactic(auto, using(crate::proofs::Raising::texts))]
fn is_other_text(j: &Joining<'_>, u: usize) -> bool
    requires { Ready j.now × (u < length j.now.line.now) }
    ensures { result ≡ not (is_apart (text_before (line_in j.now) u) (text_after (line_in j.now) u) and asked groups j.now u) }
{
    if !is_apart(j, u) {
        return true;
    }
    !moves::groups(j, u)
}

// The kinds of the use at u; `passed` says whether one of the lines that it passes reads memory.
#[tactic(auto, using(crate::proofs::Raising::kinds_by))]
pub fn use_kinds(j: &Joining<'_>, u: usize, passed: bool) -> u16
    requires { Ready j.now × (u < length j.now.line.now) }
    ensures { (lines : Listing) → passed ≡ any (λ l. world l.tokens) lines → result ≡ asked use_kinds j.now u lines }
{
    let over = given(OVERWRITTEN, is_overwritten(j, u));
    let call = given(CALL_MOVED, moves::moves_call(j, u));
    let read = given(READ_MOVED, moves::moves_read(j, u, passed));
    let width = given(OTHER_WIDTH, kept::changes_width(j, u));
    let other = given(OTHER_TEXT, is_other_text(j, u));
    over | (call | (read | (width | other)))
}

// Whether numbers alone are computed where a register of less than 64 bits was.
#[tactic(auto, using(laws::proofs::Scans::tests, laws::proofs::Std::tests_of_std), unfolding(crate::specs::Split::use_sums))]
pub fn use_sums(j: &Joining<'_>, u: usize) -> bool
    requires { Ready j.now × (u < length j.now.line.now) }
    ensures { result ≡ asked use_sums j.now u }
{
    kept::is_lone(j) && used(j, u) < 64 && beside_number(j, u)
}
