// The words for one reason, by what stands in the tape at the place of a refusal.
ghost use Rattle.std.specs.Prelude.{◌≡◌, ◌≤◌, ℕ, List, true, length};
ghost use Rattle.answers.specs.Refusals.{number_of};
ghost use Rattle.tape.specs.Commands.{command_in, size_of, standing};
ghost use Rattle.reference.specs.Questions.{Refused, read};
ghost use Rattle.reports.specs.Because.{Stops, OfProfile, has_several};
ghost use Rattle.reports.specs.Why.{no_command, misplaced, unbounded, too_many, words_by, words_at, words};

use crate::profile::broken;
use crate::text_of;
use answers::{Reason, Refusal};
use tape::commands::Command;
use tape::reader::command_at;

// 3.
#[tactic(auto, unfolding(crate::specs::Why::no_command))]
fn no_command(tape: &[u8], place: u64) -> &'static [u8]
    ensures { result.now ≡ no_command tape.now place }
{
    if place < tape.len() as u64 {
        b"the byte at this offset begins no command"
    } else {
        b"the tape ends here, and no end (FF) was read"
    }
}

// 5.
#[tactic(auto, unfolding(crate::specs::Why::misplaced))]
fn misplaced(command: Command) -> &'static [u8]
    ensures { (tape : List ℕ) → (at : ℕ) → result.now ≡ misplaced (command_in tape at command) }
{
    match command {
        Command::Marked { low, high } => {
            if high < low {
                b"the marks at this offset have their lowest above their highest"
            } else {
                b"the marks at this offset do not follow the command of a line"
            }
        }
        _ => b"the token at this offset stands before any line",
    }
}

// 6.
#[tactic(auto, unfolding(crate::specs::Why::unbounded))]
fn unbounded(command: Command) -> &'static [u8]
    ensures { (tape : List ℕ) → (at : ℕ) → result.now ≡ unbounded (command_in tape at command) (size_of command) }
{
    match command {
        Command::Token { count, .. } => {
            if count == 0 {
                b"the token at this offset has a text with no byte"
            } else {
                b"the Number at this offset has more than 24 bytes"
            }
        }
        _ => b"the line at this offset has an indent above 63",
    }
}

// 10.
#[tactic(auto, unfolding(crate::specs::Why::too_many))]
fn too_many(command: Command) -> &'static [u8]
    ensures { (tape : List ℕ) → (at : ℕ) → result.now ≡ too_many (command_in tape at command) }
{
    match command {
        Command::Token { .. } => {
            b"with the token at this offset there are more than 1,024 tokens"
        }
        _ => b"with the line at this offset there are more than 256 lines",
    }
}

// By the command that stands at the place.
#[tactic(auto, unfolding(crate::specs::Why::words_by))]
fn words_by(reason: Reason, command: Command) -> &'static [u8]
    ensures { (tape : List ℕ) → (at : ℕ)
        → result.now ≡ words_by (number_of reason) (command_in tape at command, size_of command) }
{
    match reason {
        Reason::OutOfPlace => misplaced(command),
        Reason::OutOfBounds => unbounded(command),
        Reason::TooMany => too_many(command),
        _ => text_of(reason),
    }
}

// By what stands at the place.
#[tactic(auto, unfolding(crate::specs::Why::words_at))]
fn words_at(tape: &[u8], refused: Refusal) -> &'static [u8]
    ensures { result.now ≡ words_at (number_of refused.reason) (standing tape.now refused.place) }
{
    // Kept: a place is a u64, as C has it; std has no `From` of it for usize, and the error of `try_from` cannot come: no plainer.
    match command_at::<false>(tape, refused.place as usize) {
        Ok(command) => words_by(refused.reason, command),
        Err(_) => text_of(refused.reason),
    }
}

#[tactic(auto, unfolding(crate::specs::Why::words))]
fn words_by_reason(tape: &[u8], refused: Refusal) -> &'static [u8]
    ensures { result.now ≡ words tape.now (number_of refused.reason) refused.place }
{
    match refused.reason {
        Reason::NoCommand => no_command(tape, refused.place),
        Reason::OutsideProfile => broken(tape, refused.place as usize), // a line of the listing
        _ => words_at(tape, refused),
    }
}

// The words for the one reason of a refusal of a tape: of 3, 5, 6 and 10 what is not met where its reading stops, of 14 the first of the
// profile's tests that fails.
pub fn words(tape: &[u8], refused: Refusal) -> &'static [u8]
    ensures words { result.now ≡ words tape.now (number_of refused.reason) refused.place }
    ensures stops { has_several (number_of refused.reason) ≡ true
        → read tape.now ≡ Refused (number_of refused.reason) refused.place
        → Stops tape.now (number_of refused.reason) refused.place result.now }
    ensures profile { OfProfile tape.now (number_of refused.reason) refused.place result.now }
{
    words_by_reason(tape, refused)
}
