// What in a line breaks the profile of straight pieces (14), and the name that is no register (16).
ghost use Rattle.std.specs.Prelude.{◌≡◌, ◌+◌, ◌≤◌, length};
ghost use Rattle.text.specs.Cursor.{Written};
ghost use Rattle.reference.specs.Listing.{Listing};
ghost use Rattle.reference.specs.Questions.{Passed, read};
ghost use Rattle.formula.specs.Breaches.{Tells};
ghost use Rattle.reports.specs.Profile.{breach_words, words_of_breach, broken, no_register};

use crate::explained::put_head;
use crate::text_of;
use answers::{Reason, Refusal};
use formula::Breach;
use text::Cursor;

// The words for what breaks the profile.
fn breach_words(breach: Breach) -> &'static [u8]
    ensures { result.now ≡ breach_words breach }
{
    match breach {
        Breach::NoLine => b"there is no line",
        Breach::Indent => b"the indent of this line is not the first line's",
        Breach::NoToken => b"the line has no token",
        Breach::NoReturn => b"the last line does not begin with the Keyword return",
        Breach::NoTarget => b"the line does not assign to a 64-bit register (as rax, r8)",
        Breach::NarrowRegister => b"a Register in this line is no 64-bit register (as rax, r8)",
        Breach::UntidyNumber => {
            b"a Number in this line has a plus, a second minus or a zero in front"
        }
        Breach::UnreadNumber => b"a Number in this line is none that the profile reads",
        Breach::ForeignToken => b"a token in this line is no Register, Number or Punct",
        Breach::NoBlank => b"behind the return of this line stands no blank",
        Breach::NoEquals => b"behind the register of this line stands no = between blanks",
        Breach::Brackets => b"a bracket in this line is not closed, or not opened",
        Breach::Signs => {
            b"this line's value is not terms joined by + or - between blanks, and then a semicolon"
        }
        Breach::TwoPuncts => b"two Puncts stand side by side in this line",
    }
}

// The general words of 14, where nothing breaks it.
fn words_of_breach(breach: Option<Breach>) -> &'static [u8]
    ensures { result.now ≡ words_of_breach breach }
{
    match breach {
        Some(breach) => breach_words(breach),
        None => text_of(Reason::OutsideProfile),
    }
}

// The words for what in line n, counted from 0, of a tape's listing breaks the profile. The tables are this function's own.
pub(crate) fn broken(tape: &[u8], n: usize) -> &'static [u8]
    ensures words { result.now ≡ broken tape.now n }
    ensures tells { (lines : Listing) → read tape.now ≡ Passed lines → Tells lines }
{
    let mut tokens = [0u64; 1024];
    let mut lines = [0u64; 256];
    match formula::load(tape, &mut tokens, &mut lines) {
        Ok(loaded) => words_of_breach(formula::breach_at(
            tape,
            &tokens[..loaded.tokens],
            &lines[..loaded.lines],
            n,
        )),
        Err(_) => text_of(Reason::OutsideProfile),
    }
}

// Puts the line that says which name is no register at the front, and says how long it is.
pub fn put_no_register(name: &[u8], out: &mut [u8]) -> usize
    requires { length name.now + 96 ≤ length out.old }
    ensures { Written out.old 0 (no_register name.now) out.new result }
{
    let mut line = Cursor::new(out, 0);
    put_head(
        Refusal {
            reason: Reason::NoRegister,
            place: 0,
        },
        &mut line,
    );
    line.put(b": ");
    line.put(name);
    line.put(b" is no 64-bit register (as rax, r8)\n");
    line.at
}
