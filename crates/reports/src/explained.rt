// The line that tells a refusal by the questions of a tape: with the line and the token of its place, and the words for the one reason.
ghost use Rattle.std.specs.Prelude.{◌≡◌, [], ◌∷◌, ◌++◌, ◌+◌, ◌≤◌, length};
ghost use Rattle.text.specs.Cursor.{Fits, Puts, Written};
ghost use Rattle.answers.specs.Refusals.{number_of};
ghost use Rattle.reference.specs.Text.{bytes};
ghost use Rattle.reports.specs.Explained.{is_behind, to_line, token_part, located, line_told, spot_told, explained};
ghost use Rattle.reports.specs.Reports.{head};

use crate::places::{Spot, spot_of};
use crate::put_named;
use crate::why::words;
use answers::{Reason, Refusal};
use text::Cursor;

fn to_line(reason: Reason) -> &'static [u8]
    ensures { result.now ≡ to_line (number_of reason) }
{
    match reason {
        Reason::NoCommand | Reason::CutOff | Reason::BytesAfterEnd => b", behind line ",
        _ => b", line ",
    }
}

// Puts the token, if the place is in one.
fn put_token(spot: Spot, out: &mut Cursor)
    requires { Fits out.old 28 }
    ensures { Puts out.old (token_part spot) out.new }
{
    if spot.token != 0 {
        put_named(b", token ", spot.token, out);
    }
}

// Puts the line and the token, where a line has begun.
#[tactic(auto, using(crate::proofs::Putting::lengths), unfolding(crate::specs::Explained::located))]
fn put_located(reason: Reason, spot: Spot, out: &mut Cursor)
    requires { Fits out.old 62 }
    ensures { Puts out.old (located (number_of reason) spot) out.new }
{
    if spot.line != 0 {
        put_named(to_line(reason), spot.line, out);
        put_token(spot, out);
    }
}

// The line of this number, counted from 0, as 14 tells it.
fn line_told(place: u64) -> Spot
    ensures { result ≡ line_told place }
{
    if place < 256 {
        Spot {
            line: place + 1,
            token: 0,
        }
    } else {
        Spot { line: 0, token: 0 }
    }
}

// Where a refusal is.
fn spot_told(tape: &[u8], refused: Refusal) -> Spot
    ensures { result ≡ spot_told tape.now (number_of refused.reason) refused.place }
{
    match refused.reason {
        Reason::OutsideProfile => line_told(refused.place),
        _ => spot_of(tape, refused.place),
    }
}

// Puts what question refuses, and at what place.
pub(crate) fn put_head(refused: Refusal, out: &mut Cursor)
    requires { Fits out.old 52 }
    ensures { Puts out.old (head (number_of refused.reason) refused.place) out.new }
{
    put_named(b"refused ", refused.reason.number(), out);
    put_named(b" at ", refused.place, out);
}

// Puts the line of a refusal of a tape at the front, and says how long it is.
pub fn put_explained(tape: &[u8], refused: Refusal, out: &mut [u8]) -> usize
    requires { 512 ≤ length out.old }
    ensures { Written out.old 0 (explained tape.now (number_of refused.reason) refused.place) out.new result }
{
    let spot = spot_told(tape, refused);
    let words = words(tape, refused);
    let mut line = Cursor::new(out, 0);
    put_head(refused, &mut line);
    put_located(refused.reason, spot, &mut line);
    line.put(b": ");
    line.put(words);
    line.put(b"\n");
    line.at
}
