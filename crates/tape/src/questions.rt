// Document 01's questions, asked of each command from the left. Nothing is written.
ghost use Rattle.std.specs.Prelude.{◌≡◌, [], ◌∷◌, ◌+◌, ◌^◌, ◌≤◌, ◌<◌, leb, length, drop, IfSome};
ghost use Rattle.std.proofs.Math.Option.{none};
ghost use Rattle.reference.specs.Lists.{position};
ghost use Rattle.reference.specs.Listing.{token};
ghost use Rattle.reference.specs.Options.{option_of};
ghost use Rattle.reference.specs.Tape.{new_line, marked, new_token};
ghost use Rattle.reference.specs.Questions.{has_line, is_within, is_offending};
ghost use Rattle.reference.specs.Questions.{read_command_by, let_passed◌then◌, Passed, read_by};
ghost use Rattle.reference.specs.Steps.{FromHereBy};
ghost use Rattle.tape.specs.Commands.{form_of, looked_at, command_in};
ghost use Rattle.tape.specs.Questions.{said, asking, totals_of, sizes_in, Counts, counted, stepped, StandsIn, SteppedOn, checked};

use crate::commands::{Command, header_of, size_of};
use crate::reader::TapeReader;
use answers::{Reason, Refusal};
use ground::kinds::NUMBER;

// What was read so far, and whether the command just before is a line's.
#[derive(Clone, Copy, Debug, PartialEq, Eq)]
pub struct Totals {
    pub lines: usize,
    pub tokens: usize,
    pub text: usize,
    pub fresh: bool,
}

// A command that passed the questions, the offset after it and the totals with it.
#[derive(Clone, Copy, Debug, PartialEq, Eq)]
pub struct Advance {
    pub command: Command,
    pub next: usize,
    pub totals: Totals,
}

// ---- one command

// The question that refuses a line that stands whole at an offset, if there is one.
fn ask_line(indent: u64, at: usize, totals: Totals) -> Result<(), Refusal>
    ensures { said result ≡ asking [] at (totals_of totals) (new_line none indent) }
{
    if 63 < indent {
        return Err(Reason::OutOfBounds.at(at));
    }
    if 256 <= totals.lines {
        return Err(Reason::TooMany.at(at)); // 257 lines
    }
    Ok(())
}

// Whether marks may stand here: directly after a line's command, the lowest not above the highest.
fn marks_follow(low: u64, high: u64, totals: Totals) -> bool
    ensures { result ≡ has_line (totals_of totals) (marked (record { lowest = low; highest = high })) }
{
    totals.fresh && low <= high
}

// Whether a text is as long as one of its kind may be.
fn token_fits(kind: u64, text: &[u8]) -> bool
    ensures { result ≡ is_within (new_token (token kind text.now)) }
{
    !text.is_empty() && (kind != NUMBER || text.len() <= 24)
}

// Whether a byte of a text is not 20 to 7E.
fn offends(byte: u8) -> bool
    ensures { result ≡ is_offending byte }
{
    !(0x20..=0x7E).contains(&byte)
}

// Where the first byte of a text that is not 20 to 7E stands.
fn first_offending(text: &[u8]) -> Option<usize>
    ensures place { option_of result ≡ position is_offending text.now }
    ensures inside { IfSome result (λ i. i < length text.now) }
{
    text.iter().position(|b| offends(*b))
}

// Whether all text stays within its limit with a text more.
fn text_fits(sum: usize, count: usize) -> bool
    ensures { result ≡ leb (sum + count) 24576 }
{
    sum <= 24576 && count <= 24576 - sum
}

// The question that refuses a token that stands whole at an offset, if there is one.
fn ask_token(kind: u64, text: &[u8], at: usize, totals: Totals) -> Result<(), Refusal>
    requires { at + 3 + length text.now < 2 ^ 64 }
    ensures { said result ≡ asking [] at (totals_of totals) (new_token (token kind text.now)) }
{
    if totals.lines == 0 {
        return Err(Reason::OutOfPlace.at(at));
    }
    if !token_fits(kind, text) {
        return Err(Reason::OutOfBounds.at(at));
    }
    if 1024 <= totals.tokens {
        return Err(Reason::TooMany.at(at)); // asked before TooMuchText
    }
    if !text_fits(totals.text, text.len()) {
        return Err(Reason::TooMuchText.at(at)); // asked before Unprintable
    }
    match first_offending(text) {
        Some(i) => Err(Reason::Unprintable.at(at + 3 + i)), // the byte's place
        None => Ok(()),
    }
}

// The question that refuses a command that stands whole at an offset, if there is one.
// Inlined, as `read_command`, `step_on` and `check` are: called, each hands its `Result` on through memory, and a walk over a tape takes
// two to five times as long.
#[inline(always)]
fn ask(reader: TapeReader<'_>, command: Command, totals: Totals) -> Result<(), Refusal>
    requires { reader.at + looked_at command ≤ length reader.tape.now }
    ensures { said result ≡ asking (drop reader.entry.at reader.entry.tape.now) reader.entry.at (totals_of totals)
        (command_in reader.entry.tape.now reader.entry.at command) }
{
    let at = reader.at;
    match command {
        Command::Addressed { indent, .. } | Command::Plain { indent } => ask_line(
            indent, at, totals,
        ),
        Command::Marked { low, high } => {
            if marks_follow(low, high, totals) {
                Ok(())
            } else {
                Err(Reason::OutOfPlace.at(at))
            }
        }
        Command::Token { kind, count } => ask_token(kind, reader.token(count), at, totals),
        Command::End => {
            if reader.tape.len() - at == 1 {
                Ok(())
            } else {
                Err(Reason::BytesAfterEnd.at(at))
            }
        }
    }
}

// The totals with one command more.
pub fn count_in(command: Command, totals: Totals) -> Totals
    requires { Counts command totals }
    ensures { totals_of result ≡ counted command (totals_of totals) }
{
    match command {
        Command::Addressed { .. } | Command::Plain { .. } => Totals {
            lines: totals.lines + 1,
            fresh: true,
            ..totals
        },
        Command::Marked { .. } => Totals {
            fresh: false, // 03 once
            ..totals
        },
        Command::Token { count, .. } => Totals {
            tokens: totals.tokens + 1,
            text: totals.text + count,
            fresh: false, // and not behind a token
            ..totals
        },
        Command::End => totals,
    }
}

// Reads the command at the reader's offset, in a tape of either form, the totals so far being given: any, also such as no tape reaches. The
// answer depends only on them and on the tape from the offset on (`FromHereBy`, request M-102).
#[inline(always)]
pub fn read_command<const BASED: bool>(
    reader: TapeReader<'_>,
    totals: Totals,
) -> Result<Advance, Refusal>
    ensures result_value { stepped reader.entry.tape.now reader.entry.at result
        ≡ read_command_by (form_of BASED) reader.entry.tape.now reader.entry.at (totals_of totals) }
    ensures from_here { FromHereBy (form_of BASED) reader.entry.tape.now reader.entry.at (totals_of totals)
        (stepped reader.entry.tape.now reader.entry.at result) }
    ensures stands { StandsIn (form_of BASED) reader.entry.tape.now reader.entry.at result }
{
    let command = reader.next::<BASED>()?; // first NoCommand and CutOff
    ask(reader, command, totals)?;
    Ok(Advance {
        command,
        next: reader.at + size_of::<BASED>(command),
        totals: count_in(command, totals),
    })
}

// The same at an offset of a tape.
pub fn step<const BASED: bool>(tape: &[u8], at: usize, totals: Totals) -> Result<Advance, Refusal>
    ensures result_value { stepped tape.now at result ≡ read_command_by (form_of BASED) tape.now at (totals_of totals) }
    ensures from_here { FromHereBy (form_of BASED) tape.now at (totals_of totals) (stepped tape.now at result) }
    ensures stands { StandsIn (form_of BASED) tape.now at result }
{
    read_command::<BASED>(TapeReader::new(tape).moved(at), totals)
}

// ---- the whole tape

// The totals before the first command: nothing is read yet.
// Kept: a constant, no `#[derive(Default)]`, which would be no plainer: five crates name it, and where a proof has the constant's
// fields at once, `Totals::default()` would be one more call there, known by what it promises.
pub const NONE: Totals = Totals {
    lines: 0,
    tokens: 0,
    text: 0,
    fresh: false,
};

// Reads the command at the reader's offset; at FF there is none more.
#[inline(always)]
fn step_on<const BASED: bool>(
    reader: TapeReader<'_>,
    totals: Totals,
) -> Result<Option<Advance>, Refusal>
    ensures { SteppedOn (form_of BASED) reader.entry.tape.now reader.entry.at (totals_of totals) result }
{
    let step = read_command::<BASED>(reader, totals)?;
    Ok(if step.command.is_end() {
        None
    } else {
        Some(step)
    })
}

// Asks the questions of every command of a tape of either form.
// Kept: it answers the totals, and no struct that only `check` makes and whose type says that its bytes are an accepted tape. The fact
// (`AcceptedTape`) is asked in twelve contracts of the crates above; each would name the struct's bytes in place of the tape, in all that
// it asks and promises, and no clause but this one would go. The public calls take any bytes and `load` of crate tables, which is public,
// would ask more of its callers. And crate sources goes on with an accepted tape that no `check` saw: the copy that it wrote (`came_into`).
#[inline(always)]
pub fn check<const BASED: bool>(tape: &[u8]) -> Result<Totals, Refusal>
    ensures { checked result ≡ (let_passed (read_by (form_of BASED) tape.now) then λ lines. Passed (sizes_in lines)) }
{
    let mut reader = TapeReader::new(tape).moved(header_of::<BASED>());
    let mut totals = NONE;
    while let Some(step) = step_on::<BASED>(reader, totals)? {
        reader = reader.moved(step.next);
        totals = step.totals;
    }
    Ok(totals)
}
