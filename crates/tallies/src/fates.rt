// What became of a raw line, and how many labels stand: by the two tapes, and by the number of the finished line that a raw line became.
ghost use Rattle.std.specs.Prelude.{◌≡◌, eqb, map};
ghost use Rattle.reference.specs.Control.{◌and◌};
ghost use Rattle.reference.specs.Options.{option_of};
ghost use Rattle.tape.specs.Held.{held};
ghost use Rattle.tallies.specs.Lines.{token_shown, line_shown};
ghost use Rattle.tallies.specs.Fates.{same_token, same_address, same_tokens, same_line, begins_result};
ghost use Rattle.tallies.specs.Fates.{fate_as, fate_of, is_kept, label_stands, standing_from};

use crate::listing::{Line, Token, line_at};
use text::{is_result_name, same, starts};

// Gone; or it became a finished line: as it was; or without the result that was cut; or with other changes.
#[derive(Clone, Copy, Debug, PartialEq, Eq)]
pub enum Fate {
    Gone,
    Rewritten,
    Cut,
    Kept,
}

impl Fate {
    fn is_kept(self) -> bool
        ensures { result ≡ is_kept self }
    {
        match self {
            Fate::Kept => true,
            Fate::Gone | Fate::Rewritten | Fate::Cut => false,
        }
    }
}

fn same_token(one: Token, other: Token) -> bool
    ensures { result ≡ same_token (token_shown one.entry) (token_shown other.entry) }
{
    one.kind == other.kind && same(one.text, other.text)
}

fn same_address(one: Option<u64>, other: Option<u64>) -> bool
    ensures { result ≡ same_address (option_of one) (option_of other) }
{
    match (one, other) {
        (Some(a), Some(b)) => a == b,
        (None, None) => true,
        _ => false,
    }
}

fn same_tokens(one: Line, other: Line) -> bool
    ensures { result ≡ same_tokens (line_shown one.entry).tokens (line_shown other.entry).tokens }
{
    let mut others = other.tokens();
    for t in one.tokens() {
        let Some(u) = others.next() else {
            return false;
        };
        if !same_token(t, u) {
            return false;
        }
    }
    others.next().is_none()
}

// Whether two lines have the same address, indent and tokens.
fn same_line(one: Line, other: Line) -> bool
    ensures { result ≡ same_line (line_shown one.entry) (line_shown other.entry) }
{
    if !same_address(one.address, other.address) {
        return false;
    }
    one.indent == other.indent && same_tokens(one, other)
}

// Whether a line begins with what a cut takes away: `rax` or `eax`, and ` = `.
fn begins_result(line: Line) -> bool
    ensures { result ≡ begins_result (line_shown line.entry).tokens }
{
    let mut tokens = line.tokens();
    let Some(name) = tokens.next() else {
        return false;
    };
    let Some(equals) = tokens.next() else {
        return false;
    };
    is_result_name(name.text) && starts(equals.text, b" = ")
}

// What became of a line that became another.
fn fate_as(raw: Line, finished: Line) -> Fate
    ensures { result ≡ fate_as (line_shown raw.entry) (line_shown finished.entry) }
{
    if same_line(raw, finished) {
        Fate::Kept
    } else if begins_result(raw) && !begins_result(finished) {
        Fate::Cut
    } else {
        Fate::Rewritten
    }
}

// What became of raw line k, which became the finished line with the number `place`, if it is not gone.
pub fn fate_of(raw: &[u8], k: usize, cleaned: &[u8], place: Option<usize>) -> Fate
    ensures { result ≡ fate_of (held raw.now) k (held cleaned.now) (option_of place) }
{
    let Some(line) = line_at(raw, k) else {
        return Fate::Gone;
    };
    let Some(q) = place else {
        return Fate::Gone;
    };
    let Some(finished) = line_at(cleaned, q) else {
        return Fate::Gone;
    };
    fate_as(line, finished)
}

// Whether raw line k is a label, and unchanged.
pub fn label_stands(raw: &[u8], k: usize, cleaned: &[u8], place: Option<usize>) -> bool
    ensures { result ≡ label_stands (held raw.now) k (held cleaned.now) (option_of place) }
{
    let Some(line) = line_at(raw, k) else {
        return false;
    };
    line.label().is_some() && fate_of(raw, k, cleaned, place).is_kept()
}

// How many labels stand unchanged, of the raw lines that the places are of.
pub fn count_standing(raw: &[u8], cleaned: &[u8], places: &[Option<usize>]) -> usize
    ensures { result ≡ standing_from (held raw.now) (held cleaned.now) 0 (map option_of places.now) }
{
    let mut n = 0;
    for (k, place) in places.iter().enumerate() {
        n += usize::from(label_stands(raw, k, cleaned, *place));
    }
    n
}
