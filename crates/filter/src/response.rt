// What the program answers to an input, put into an output of 59,137 bytes.
ghost use Rattle.std.specs.Prelude.{◌≡◌, ◌≤◌, length, take};
ghost use Rattle.reference.specs.Questions.{WORK, OUTPUT};
ghost use Rattle.reference.specs.Reply.{reply};
ghost use Rattle.answers.specs.Refusals.{number_of};
ghost use Rattle.filter.specs.Response.{refusal, shown, settings, LONGEST, response, Shows};

use answers::{Reason, Refusal};
use clean::clean;
use ground::rules::Rules;
use printing::put_decimal;
use text::Cursor;

// Puts the line of a refusal, and says how long it is.
// Kept: beside `put_refusal` of crate reports, whose line goes on with what the number means: one function for the front that the two share
// is no plainer, since this program would rest on the reports for four calls.
fn put_refusal(refused: Refusal, out: &mut [u8]) -> usize
    requires { 53 ≤ length out.old }
    ensures { Shows (refusal (number_of refused.reason) refused.place) out.old out.new result }
{
    let mut out = Cursor::new(out, 0);
    out.put(b"refused ");
    put_decimal(refused.reason.number(), &mut out);
    out.put(b" at ");
    put_decimal(refused.place, &mut out);
    out.put(b"\n");
    out.at
}

// Cleans a tape, every setting off, and says how long the answer is.
fn answer(convention: u8, tape: &[u8], out: &mut [u8]) -> usize
    requires { length out.old ≡ OUTPUT }
    ensures { Shows (shown (reply (settings convention) tape.now WORK WORK OUTPUT)) out.old out.new result }
{
    // Kept: the sizes that question 2 asks for (requests M-109, M-105) as numbers, as they stand in `asked` of crate clean, on which this
    // program does not rest.
    let mut work_a = [0u8; 49152];
    let mut work_b = [0u8; 49152];
    let rules = Rules {
        convention,
        settle: false,
        edition: 0,
        parts: false,
        profile: false,
    };
    match clean(rules, tape, &mut work_a, &mut work_b, out) {
        Err(refused) => put_refusal(refused, out),
        Ok(finished) => finished.length,
    }
}

// The longest tape that is taken.
const LONGEST_TAPE: usize = 65536;

// Cleans a tape, or the front of a longer one.
fn answer_front(convention: u8, tape: &[u8], out: &mut [u8]) -> usize
    requires { length out.old ≡ OUTPUT }
    ensures { Shows (shown (reply (settings convention) (take LONGEST tape.now) WORK WORK OUTPUT))
        out.old out.new result }
{
    let most = LONGEST_TAPE.min(tape.len());
    answer(convention, &tape[..most], out)
}

// Answers an input of any length: a convention byte and a tape.
pub fn respond(input: &[u8], out: &mut [u8]) -> usize
    requires { length out.old ≡ OUTPUT }
    ensures { Shows (response input.now) out.old out.new result }
{
    match input.split_first() {
        Some((convention, tape)) => answer_front(*convention, tape, out),
        None => put_refusal(Reason::UnknownConvention.at(0), out),
    }
}
