// Codes: the family and the width of a token's text that begins at bit 0, found once and kept in its word, beside the traits. A high byte
// has none, and is read.
ghost use Rattle.std.specs.Prelude.{◌≡◌, ◌+◌, ◌*◌, ◌%◌, Some};
ghost use Rattle.reference.specs.Text.{◌≟◌};
ghost use Rattle.reference.specs.Names.{family};
ghost use Rattle.names.specs.Families.{Spells};
ghost use Rattle.names.specs.declared.families.Spelled.TheVariants.{Row, Front};
ghost use Rattle.lines.specs.Codes.{bucket, coded_width, Codes, Placed};
ghost use Rattle.lines.specs.Words.{Recoded};
ghost use Rattle.lines.specs.Texts.{Points, text_of};

use crate::texts::Texts;
use crate::{traits, words};
use ground::kinds;
use names::Spelled;

// A number below 7 of a name.
#[tactic(auto, using(crate::proofs::codes::Coding::coding))]
pub fn bucket(s: &[u8]) -> u64
    ensures { result ≡ bucket s.now }
{
    match s {
        [.., b, a] => (u64::from(*a) + 3 * u64::from(*b)) % 7,
        _ => 0,
    }
}

// ---- from the code

// The width that a code says: 64, 32, 16 or 8.
pub(crate) fn width_of(c: u64) -> u64
    ensures { result ≡ coded_width c }
{
    64 >> (c % 4)
}

// Whether two tokens have one text: codes that differ tell at once.
pub(crate) fn same_text(texts: &Texts<'_>, v: u64, w: u64) -> bool
    requires { Points texts.now v × Points texts.now w }
    ensures { result ≡ (text_of texts.now v ≟ text_of texts.now w) }
{
    if let (Some(a), Some(b)) = (words::code(v), words::code(w)) {
        if a != b {
            return false;
        }
    }
    text::same(words::text(texts, v), words::text(texts, w))
}

// ---- to the code

// The place of a width among those of codes, back from `width_of`.
fn place_of(width: u64) -> Option<u64>
    ensures { Placed width result }
{
    match width {
        64 => Some(0),
        32 => Some(1),
        16 => Some(2),
        8 => Some(3),
        _ => None,
    }
}

// The code of a row and a width from bit 0.
fn row_code(s: &[u8], row: u64, width: u64) -> Option<u64>
    requires { Spells s.now (family s.now) (Some (Row row width 0)) }
    ensures { Codes s.now result }
{
    if s.is_empty() {
        return None;
    }
    Some(4 + 4 * row + place_of(width)?)
}

// The code of a text that is its family's name.
#[tactic(auto, using(crate::proofs::codes::Coding::coding))]
fn whole_code(s: &[u8], n: usize) -> Option<u64>
    requires { Spells s.now (family s.now) (Some (Front n 64)) }
    ensures { Codes s.now result }
{
    if n == 0 || n != s.len() {
        return None;
    }
    Some(36 + 4 * bucket(s))
}

// The code of a text that is its family's name and one byte more, which no name of 64 bits is.
fn front_code(s: &[u8], n: usize, width: u64) -> Option<u64>
    requires { Spells s.now (family s.now) (Some (Front n width)) }
    ensures { Codes s.now result }
{
    if width == 64 || n + 1 != s.len() {
        return None;
    }
    Some(36 + 4 * bucket(&s[..n]) + place_of(width)?)
}

// The code of a name; none where it has no family, and for a high byte.
fn code_of(s: &[u8]) -> Option<u64>
    ensures { Codes s.now result }
{
    match names::family(s)? {
        Spelled::Row {
            row,
            width,
            lowest: 0,
        } => row_code(s, row, width),
        Spelled::Row { .. } => None,
        Spelled::Front { length, width: 64 } => whole_code(s, length),
        Spelled::Front { length, width } => front_code(s, length, width),
    }
}

// The code of a token of this kind; only a Register has one.
fn code_for(kind: u64, s: &[u8]) -> Option<u64>
    ensures { Codes s.now result }
{
    if kind != kinds::REGISTER {
        return None;
    }
    code_of(s)
}

// The word with what is known of its text, where that is in the tape.
#[tactic(auto, using(crate::proofs::codes::Recoding::recoding, crate::proofs::words::Tokens::bounds))]
pub fn coded(tape: &[u8], w: u64) -> u64
    ensures recoded { Recoded tape.now w result }
    ensures parts { result % 68719476736 ≡ w % 68719476736 }
{
    if words::buffer(w) != words::IN_TAPE {
        return w;
    }
    let from = words::start(w);
    let Some(s) = tape.get(from..from + words::len(w)) else {
        return w;
    };
    let kind = words::kind(w);
    words::with_coding(
        w,
        code_for(kind, s).unwrap_or(0),
        traits::traits_of(kind, s),
    )
}
