// Places in a line: a token's number and a byte of its text, which is 0 in a token that is no Punct.
ghost use Rattle.std.specs.Prelude.{[], ◌∷◌};
ghost use Rattle.reference.specs.Evaluators.{behind, operator};
ghost use Rattle.formula.specs.Line.{left, Placed, InLine, Readable, Leads, Operates};

use crate::line::Line;
use ground::kinds;
use lines::words;

#[derive(Clone, Copy, Debug, PartialEq, Eq)]
pub struct Place {
    pub token: usize,
    pub byte: usize,
}

#[derive(Clone, Copy, Debug, PartialEq, Eq)]
pub enum Sign {
    Plus,
    Minus,
}

// ` + ` or ` - `, and the place behind it.
#[derive(Clone, Copy, Debug, PartialEq, Eq)]
pub struct Operation {
    pub sign: Sign,
    pub place: Place,
}

// The place behind the byte c of a Punct, if it stands here.
fn behind_byte(line: &Line<'_>, place: Place, c: u8) -> Option<Place>
    requires { Readable line.now × Placed line.now place }
    ensures { Leads line.now (behind (c ∷ []) (left line.now place)) result }
{
    if line.words.len() <= place.token {
        return None;
    }
    let w = line.words[place.token];
    if words::kind(w) != kinds::PUNCT {
        return None;
    }
    let s = words::text(&line.texts, w);
    if s[place.byte] != c {
        return None;
    }
    if place.byte + 1 < s.len() {
        return Some(Place {
            byte: place.byte + 1,
            ..place
        });
    }
    Some(Place {
        token: place.token + 1,
        byte: 0,
    })
}

// The place behind a text of Puncts, if it stands here. Behind an empty text is the place that was given, so that one is asked to stand in
// the line (`InLine`).
pub fn behind(line: &Line<'_>, start: Place, t: &[u8]) -> Option<Place>
    requires { Readable line.now × InLine line.now start }
    ensures { Leads line.now (behind t.now (left line.now start)) result }
{
    let mut place = start;
    for c in t {
        place = behind_byte(line, place, *c)?;
    }
    Some(place)
}

// The operator at a place, if one stands here.
pub fn operator(line: &Line<'_>, place: Place) -> Option<Operation>
    requires { Readable line.now × InLine line.now place }
    ensures { Operates line.now (operator (left line.now place)) result }
{
    if let Some(next) = behind(line, place, b" + ") {
        return Some(Operation {
            sign: Sign::Plus,
            place: next,
        });
    }
    let next = behind(line, place, b" - ")?;
    Some(Operation {
        sign: Sign::Minus,
        place: next,
    })
}
