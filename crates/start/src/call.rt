// The call: the tape's questions, 14, 16, 15, and the answer. Nothing is lent to be written.
ghost use Rattle.std.specs.Prelude.{◌≡◌, ◌≤◌, length};
ghost use Rattle.formula.specs.Profile.{Filled};
ghost use Rattle.lines.specs.Lines.{Reading, listing_read};
ghost use Rattle.lines.specs.Words.{Holds};
ghost use Rattle.answers.specs.Answers.{answer_of};
ghost use Rattle.start.specs.Start.{ask_names, ask_formula, start_reply};
ghost use Rattle.start.specs.Formulas.{listing_in, Profiled};

use crate::listed::{are_known, is_register};
use crate::reckoning::reckon;
use crate::starts::Starts;
use answers::{Answer, Reason};
use lines::texts::{Listing, Texts};
use solving::solve_sum;

// 16 and 15, and the start value, of a listing in the profile.
fn solved(formula: &Listing<'_>, starts: &Starts<'_>, wanted: u64) -> Answer
    requires { Profiled formula.now × (length formula.now.tokens.now ≤ 1024) }
    ensures { (reading : Reading) → answer_of result ≡ ask_names (listing_in formula.now reading)
        starts.now.chosen.now starts.now.list.now wanted }
{
    if !is_register(starts.chosen) || !are_known(starts.list) {
        return Err(Reason::NoRegister.at(0));
    }
    let p = reckon(formula, starts);
    solve_sum(p.multiplier, p.constant, wanted).ok_or(Reason::NoStartValue.at(0))
}

// 14 and what follows, of a listing whose texts are all in the tape.
fn asked(tape: &[u8], tokens: &[u64], lines: &[u64], starts: &Starts<'_>, wanted: u64) -> Answer
    requires { Filled tape.now tokens.now lines.now × Holds tape.now tape.now tokens.now × (length tokens.now ≤ 1024) }
    ensures { (reading : Reading) → answer_of result ≡ ask_formula (listing_read tape.now tape.now tokens.now reading lines.now)
        starts.now.chosen.now starts.now.list.now wanted }
{
    match formula::breaks(tape, tokens, lines) {
        Some(line) => Err(Reason::OutsideProfile.at(line)),
        None => {
            let formula = Listing {
                texts: Texts { tape, area: tape },
                tokens,
                lines,
            };
            solved(&formula, starts, wanted)
        }
    }
}

// The smallest start value of the chosen register for which the formula of a tape returns the wanted value, the other registers starting
// with the values that the list has for their names, or 0.
pub fn start_value(tape: &[u8], chosen: &[u8], list: &[u8], wanted: u64) -> Answer
    ensures { answer_of result ≡ start_reply tape.now chosen.now list.now wanted }
{
    let mut tokens = [0u64; 1024];
    let mut lines = [0u64; 256];
    let loaded = formula::load(tape, &mut tokens, &mut lines)?;
    asked(
        tape,
        &tokens[..loaded.tokens],
        &lines[..loaded.lines],
        &Starts { chosen, list },
        wanted,
    )
}
