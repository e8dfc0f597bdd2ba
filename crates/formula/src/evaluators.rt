// The evaluators of expressions and terms, which call each other; at each call the text bytes left are fewer, or it is a term's where it
// was an expression's. A value is a pair of numbers modulo 2^64: of a register that is chosen it has a multiple, and a constant beside
// it.
//
// `values` has a pair for each token of the line: what a register is worth there, or a number. Past its end all are 0, so an empty table
// serves to ask whether a line is read at all. A table that gives a register two values is excluded (`Consistent`); of any other the
// contracts determine each result (proofs/Determined.antt).
//
// Brackets nest as deep as a tape has bytes, so a level is kept small on the stack (the project's bar is 4,194,304 bytes for the deepest):
// `term` is called at one place, so that the compiler lays both in one frame; and whether the tokens are registers and numbers of the
// profile is asked before (`has_junk`), not on the way down.
ghost use Rattle.std.specs.Prelude.{◌≡◌, false};
ghost use Rattle.formula.specs.Line.{Readable, Placed, has_junk, Consistent, Term, Expression, Evaluates};
ghost use Rattle.formula.specs.Values.{joined, numbers_of, pair_at};

use crate::line::Line;
use crate::places;
use crate::places::{Place, Sign};
use crate::terms::has_junk;
use ground::kinds;
use lines::words;

// A multiple of the register that is chosen, and a constant.
#[derive(Clone, Copy, Debug, PartialEq, Eq)]
pub struct Pair {
    pub multiplier: u64,
    pub constant: u64,
}

impl Pair {
    pub const ZERO: Pair = Pair {
        multiplier: 0,
        constant: 0,
    };
}

// A value and the place behind it.
#[derive(Clone, Copy, Debug, PartialEq, Eq)]
pub struct Value {
    pub pair: Pair,
    pub place: Place,
}

// A value, or none where the profile is broken.
pub type Worth = Option<Value>;

fn pair_at(values: &[Pair], k: usize) -> Pair
    ensures { numbers_of result ≡ pair_at values.now k }
{
    values.get(k).copied().unwrap_or(Pair::ZERO)
}

// A term joined to the sum before it by its sign, or the first term.
fn joined(sign: Option<Sign>, v: u64, w: u64) -> u64
    ensures { result ≡ joined sign v w }
{
    let Some(sign) = sign else {
        return w;
    };
    match sign {
        Sign::Plus => v.wrapping_add(w),
        Sign::Minus => v.wrapping_sub(w),
    }
}

// A term from a place on; none where the profile is broken.
#[cycle(expression_term)]
pub fn term(line: &Line<'_>, values: &[Pair], place: Place) -> Worth
    requires { Readable line.now × (has_junk line.now ≡ false) × Consistent line.now values.now × Placed line.now place }
    ensures { Term line.now values.now place result }
{
    if line.words.len() <= place.token {
        return None;
    }
    if words::kind(line.words[place.token]) != kinds::PUNCT {
        return Some(Value {
            pair: pair_at(values, place.token),
            place: Place {
                token: place.token + 1,
                byte: 0,
            },
        });
    }
    let inner = places::behind(line, place, b"(")?;
    let value = expression(line, values, inner)?;
    let end = places::behind(line, value.place, b")")?;
    Some(Value {
        place: end,
        ..value
    })
}

// Terms joined by ` + ` and ` - `, from a place on; none where the profile is broken.
#[cycle(expression_term)]
pub fn expression(line: &Line<'_>, values: &[Pair], start: Place) -> Worth
    requires { Readable line.now × (has_junk line.now ≡ false) × Consistent line.now values.now × Placed line.now start }
    ensures { Expression line.now values.now start result }
{
    let mut sign = None;
    let mut multiplier = 0;
    let mut constant = 0;
    let mut place = start;
    // Kept: a `while let` behind a first term calls `term` at two places and so makes two frames a level. It was tried when values were
    // lent, and not since: the deepest brackets then took 4.7 MB of stack in place of 4.0, above the bar of 4,194,304 bytes.
    loop {
        let value = term(line, values, place)?;
        multiplier = joined(sign, multiplier, value.pair.multiplier);
        constant = joined(sign, constant, value.pair.constant);
        let Some(next) = places::operator(line, value.place) else {
            return Some(Value {
                pair: Pair {
                    multiplier,
                    constant,
                },
                ..value
            });
        };
        sign = Some(next.sign);
        place = next.place;
    }
}

// What a line's tokens behind its first one are worth: `before`, an expression, `;`, and nothing more.
pub fn evaluate(line: &Line<'_>, values: &[Pair], before: &[u8]) -> Option<Pair>
    requires { Readable line.now × Consistent line.now values.now }
    ensures { Evaluates line.now values.now before.now result }
{
    if has_junk(line) {
        return None;
    }
    let start = places::behind(line, Place { token: 0, byte: 0 }, before)?;
    let value = expression(line, values, start)?;
    let end = places::behind(line, value.place, b";")?;
    if end.token < line.words.len() {
        return None;
    }
    Some(value.pair)
}
