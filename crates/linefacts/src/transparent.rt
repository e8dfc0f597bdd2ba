// Transparent and calling lines: their facts say that they lack a family and control flow, and whether they call.
ghost use Rattle.std.specs.Prelude.{◌≡◌, false, ◌<◌};
ghost use Rattle.names.specs.Families.{is_row};
ghost use Rattle.lines.specs.Codes.{family_number};
ghost use Rattle.linefacts.specs.Transparent.{has_fact, is_transparent_save_calls, is_transparent, is_calling};
ghost use Rattle.lines.specs.Texts.{Known, Points, fam_text, text_of};

use lines::fams::Fam;
use lines::texts::Texts;
use lines::{codes, words};

// The bits of facts that are not of a family: the line has no control flow, it has no call, it has a call.
const CONTROL: u64 = 15;

pub(crate) const NO_CALL: u64 = 16;

pub(crate) const CALLING: u64 = 17;

// Whether the bit i of the facts of the line l is set.
#[tactic(auto, unfolding(crate::specs::Transparent::has_fact, lines::specs::Facts::bit))]
fn has_fact(l: u64, i: u64) -> bool
    requires { i < 64 }
    ensures { result ≡ has_fact l i }
{
    (words::facts(l) >> i) % 2 == 1
}

// Whether the facts of the line l say that it lacks the families of number n and control flow.
#[tactic(auto, using(laws::proofs::Scans::tests), unfolding(crate::specs::Transparent::is_transparent_save_calls))]
fn is_transparent_save_calls(l: u64, n: u64) -> bool
    requires { n < 15 }
    ensures { result ≡ is_transparent_save_calls l n }
{
    has_fact(l, n) && has_fact(l, CONTROL)
}

// Whether the facts of the line l say that it lacks the families of number n, control flow and calls: it is transparent for the family
// (a term of data-flow analysis: the line neither reads nor changes it).
#[tactic(auto, using(laws::proofs::Scans::tests), unfolding(crate::specs::Transparent::is_transparent))]
pub fn is_transparent(l: u64, n: u64) -> bool
    requires { n < 15 }
    ensures { result ≡ is_transparent l n }
{
    is_transparent_save_calls(l, n) && has_fact(l, NO_CALL)
}

// Whether the facts of the line l say that it lacks the families of number n and control flow, and has a call.
#[tactic(auto, using(laws::proofs::Scans::tests), unfolding(crate::specs::Transparent::is_calling))]
pub fn is_calling(l: u64, n: u64) -> bool
    requires { n < 15 }
    ensures { result ≡ is_calling l n }
{
    is_transparent_save_calls(l, n) && has_fact(l, CALLING)
}

// The number of a family that is no row's: 8 and the bucket of its name.
fn name_number(texts: &Texts<'_>, w: u64) -> u64
    requires { Points texts.now w × (is_row (text_of texts.now w) ≡ false) }
    ensures { result ≡ family_number (text_of texts.now w) }
{
    match words::code(w) {
        Some(c) if 36 <= c && c % 4 == 0 => c / 4 - 1,
        _ => 8 + codes::bucket(words::text(texts, w)),
    }
}

// The number that facts have for a family: its row, or 8 and the bucket of its name.
#[tactic(auto, using(crate::proofs::Making::row_is, crate::proofs::Making::text_is))]
pub fn fact_number(texts: &Texts<'_>, f: Fam) -> u64
    requires { Known texts.now f }
    ensures { result ≡ family_number (fam_text texts.now f) }
{
    if f < 8 { f } else { name_number(texts, f) }
}
