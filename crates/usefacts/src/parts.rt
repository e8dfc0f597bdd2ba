// A rewritten line's cautions in two parts: what the old line tells before the join is carried out, and what the new line tells after it.
#![tactic(auto, using(crate::proofs::Splitting::tests))]

ghost use Rattle.std.specs.Prelude.{ℕ, suc, ◌≡◌, List, bit_or, ltb};
ghost use Rattle.std.proofs.Math.Seq.{slice};
ghost use Rattle.reference.specs.Control.{not, ◌and◌, ◌or◌};
ghost use Rattle.reference.specs.Listing.{Token, Listing, ◌at◌};
ghost use Rattle.reference.specs.Names.{Fam};
ghost use Rattle.reference.specs.Rules as R;
ghost use Rattle.cautions.specs.Forms.{Ways};
ghost use Rattle.cautions.specs.Joins.{line_cautions};
ghost use Rattle.cautions.specs.Kinds.{◌given◌};
ghost use Rattle.lines.specs.Texts.{Holds, tokens_of};
ghost use Rattle.usefacts.specs.Split.{before_of, after_of, finished};

use crate::constants;
use lines::texts::Texts;

// The kinds that the new line has a say in.
const OTHER_WIDTH: u16 = 32;

const ODD_NUMBER: u16 = 128;

// What the old line tells: the kinds of its uses; whether a use has numbers alone computed where a narrow register was; whether the
// expression is a lone number; whether a Number that was read is not tame; how many Numbers there are once the expression is put in.
#[derive(Clone, Copy)]
pub struct Before {
    pub kinds: u16,
    pub sums: bool,
    pub lone: bool,
    pub wild: bool,
    pub numbers: usize,
}

// What the new line tells: whether one of its Numbers is not tame, or begins with `-`; how many there are.
#[derive(Clone, Copy)]
pub struct After {
    pub wild: bool,
    pub negative: bool,
    pub numbers: usize,
}

// What the new line tells.
#[tactic(auto, unfolding(crate::specs::Split::after_of))]
pub fn after_line(texts: &Texts<'_>, new: &[u64]) -> After
    requires { Holds texts.now new.now }
    ensures { result ≡ after_of (tokens_of texts.now new.now) }
{
    After {
        wild: constants::has_wild(texts, new),
        negative: constants::has_negative(texts, new),
        numbers: constants::count_numbers(texts, new),
    }
}

// A set of kinds, if a condition holds.
#[tactic(auto, using(crate::proofs::Splitting::givens))]
pub fn given(s: u16, b: bool) -> u16
    ensures { result ≡ s given b }
{
    if b { s } else { 0 }
}

// Whether a number was moved in, or two were added up, and one of the Numbers is not tame.
fn has_odd_number(b: Before, a: After) -> bool
    ensures { result ≡ ((b.lone or ltb a.numbers b.numbers) and (b.wild or a.wild)) }
{
    (b.lone || a.numbers < b.numbers) && (b.wild || a.wild)
}

// Whether numbers alone are computed, and not added up to small ones that are not negative.
fn has_odd_sum(b: Before, a: After) -> bool
    ensures { result ≡ (b.sums and not (ltb a.numbers b.numbers and not (a.negative or a.wild))) }
{
    b.sums && !(a.numbers < b.numbers && !(a.negative || a.wild))
}

// The kinds by both parts.
#[tactic(auto, using(crate::proofs::Splitting::joined_by))]
fn joined(b: Before, a: After) -> u16
    ensures { result ≡ finished b a }
{
    let odd = given(ODD_NUMBER, has_odd_number(b, a));
    let wide = given(OTHER_WIDTH, has_odd_sum(b, a));
    odd | (b.kinds | wide)
}

// The cautions of the line, by both parts.
pub fn finish(b: Before, a: After) -> u16
    ensures is { result ≡ finished b a }
    ensures whole { (rules : R.Rules) (lines : Listing) (ways : Ways) (i : ℕ) (f : Fam) (expr : List Token) (j : ℕ) (new : List Token)
        → b ≡ before_of rules f expr (lines at j).tokens (slice (suc i) j lines) → a ≡ after_of new
        → result ≡ line_cautions rules lines ways i f expr j new }
{
    joined(b, a)
}
