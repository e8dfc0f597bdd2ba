// What the command `puchkewa` writes of a reply: the bytes are those of the definitions in specs/Reports.antt.
// Kept: the functions that the command calls answer how many bytes they put: they promise every byte of the lent buffer, those behind the
// line too (`Written`), of which a slice of the buffer as the answer would say nothing.
#![tactic(auto, using(crate::proofs::Putting::lengths, text::proofs::Cursors::room_left, text::proofs::Cursors::then_puts))]

mod explained; // the line of a refusal of a tape
mod profile; // what breaks the profile, and what is no register
mod places; // where in a listing an offset is
mod why; // the words for one reason

ghost use Rattle.std.specs.Prelude.{◌≡◌, [], ◌∷◌, ◌++◌, ◌+◌, ◌*◌, ◌/◌, ◌%◌, ◌≤◌, length};
ghost use Rattle.text.specs.Cursor.{Fits, Puts, Written};
ghost use Rattle.numbers.specs.Writing.{hexadecimal};
ghost use Rattle.rounds.specs.Runs.{tally_of};
ghost use Rattle.printing.specs.Decimals.{decimal};
ghost use Rattle.answers.specs.Refusals.{number_of};
ghost use Rattle.reports.specs.Reports.{meaning, refusal, three, settled, tallied, counts, started, escape, visible_byte, visible};
ghost use Rattle.reference.specs.Numbers.{digit_byte};
ghost use Rattle.reports.specs.Reports.{quoted_byte, quoted};

use answers::{Reason, Refusal};
pub use explained::put_explained;
use numbers::{last_digit, put_digits};
use printing::put_decimal;
pub use profile::put_no_register;
use rounds::Tally;
use text::Cursor;
pub use why::words;

// What each reason means.
#[tactic(auto, unfolding(crate::specs::Reports::meaning, crate::specs::Reports::meanings))]
fn text_of(reason: Reason) -> &'static [u8]
    ensures { result.now ≡ meaning (number_of reason) }
{
    match reason {
        Reason::UnknownConvention => b"the convention is not 0, 1 or 2",
        Reason::TooLittleRoom => b"a buffer that was lent is too short",
        Reason::NoCommand => {
            b"no command begins at this offset: the tape has no more bytes, or the byte there begins none"
        }
        Reason::CutOff => b"the command that begins at this offset runs past the end of the tape",
        Reason::OutOfPlace => {
            b"at this offset stands a token before any line, or marks that follow no line or have their lowest above their highest"
        }
        Reason::OutOfBounds => {
            b"at this offset stands an indent above 63, a text with no byte, or a number of more than 24 bytes"
        }
        Reason::Unprintable => b"the byte at this offset, in a text, is not printable (20 to 7E)",
        Reason::BytesAfterEnd => b"the tape goes on behind the end that stands at this offset",
        Reason::UnknownEdition => b"the number edition is not 0 or 1",
        Reason::TooMany => {
            b"with the command at this offset there are more than 256 lines or 1,024 tokens"
        }
        Reason::TooMuchText => {
            b"with the text at this offset there are more than 24,576 bytes of text"
        }
        Reason::NewKeyword => b"the Symbol at this offset is a keyword of C's edition of 2024",
        Reason::UnreadNumber => {
            b"the Number at this offset is binary or has quotes, and the edition of 2024 does not read it"
        }
        Reason::OutsideProfile => {
            b"the line of this number, counted from 0, is the first that is not as the profile of straight pieces wants it"
        }
        Reason::NoStartValue => {
            b"no start value of the chosen register makes the formula return this value"
        }
        Reason::NoRegister => {
            b"the chosen register, or one that has a value, is no 64-bit register (as rax, r8)"
        }
        Reason::TooLong => b"more than 256 lines are asked for",
        Reason::OutOfReach => {
            b"the command at this offset has an address below the base, too far above it, or past the last address"
        }
        Reason::NoBase => b"the tape does not begin with its base (06)",
        Reason::NotHeld => b"no state is held under this name",
        Reason::StoreFull => b"eight states are held, and this name is new",
        Reason::BrokenCell => b"the cell of this number, counted from 0, is damaged",
    }
}

// What a refusal by a number means; nothing for a number that no reason has.
fn meaning(number: u64) -> &'static [u8]
    ensures { result.now ≡ meaning number }
{
    match Reason::try_from(number) {
        Ok(reason) => text_of(reason),
        Err(_) => b"",
    }
}

// Puts the line of a number, what it means, and a place.
// Kept: beside the `Display` of `Refusal`, which writes the same first bytes: that writes into a `Formatter`, and `Cursor` would want a
// `fmt::Write` of its own for this one line: no plainer.
fn put_told(number: u64, meant: &[u8], place: u64, out: &mut [u8]) -> usize
    requires { (256 ≤ length out.old) × (meant.now ≡ meaning number) }
    ensures { Written out.old 0 (refusal number place) out.new result }
{
    let mut line = Cursor::new(out, 0);
    put_named(b"refused ", number, &mut line);
    put_named(b" at ", place, &mut line);
    line.put(b": ");
    line.put(meant);
    line.put(b"\n");
    line.at
}

// Puts the line of a refusal by a number at the front, and says how long it is.
// Kept: beside `put_refused`, and `meaning` with it: what a public function promises is not given up, and this one promises the line of
// every number, also of one that no reason has.
pub fn put_refusal(number: u64, place: u64, out: &mut [u8]) -> usize
    requires { 256 ≤ length out.old }
    ensures { Written out.old 0 (refusal number place) out.new result }
{
    put_told(number, meaning(number), place, out)
}

// The same of a refusal as a call answers it.
pub fn put_refused(refused: Refusal, out: &mut [u8]) -> usize
    requires { 256 ≤ length out.old }
    ensures { Written out.old 0 (refusal (number_of refused.reason) refused.place) out.new result }
{
    put_told(
        refused.reason.number(),
        text_of(refused.reason),
        refused.place,
        out,
    )
}

// Puts a text and a number.
fn put_named(name: &[u8], n: u64, out: &mut Cursor)
    requires { Fits out.old (length name.now + 20) }
    ensures { Puts out.old (name.now ++ decimal n) out.new }
{
    out.put(name);
    put_decimal(n, out);
}

// Puts what is told of three rounds.
fn put_three(first: u64, second: u64, third: u64, out: &mut Cursor)
    requires { Fits out.old 73 }
    ensures { Puts out.old (three first second third) out.new }
{
    put_named(b", attempts ", first, out);
    put_named(b" ", second, out);
    put_named(b" ", third, out);
}

// Puts what is told of rounds that settled.
fn put_settled(rounds: u64, attempts: u64, out: &mut Cursor)
    requires { Fits out.old 73 }
    ensures { Puts out.old (settled rounds attempts) out.new }
{
    put_named(b", rounds ", rounds, out);
    put_named(b", attempts ", attempts, out);
}

// Puts what is told of the rounds.
#[tactic(auto, using(crate::proofs::Putting::lengths), unfolding(crate::specs::Reports::tallied))]
fn put_tally(tally: Tally, out: &mut Cursor)
    requires { Fits out.old 73 }
    ensures { Puts out.old (tallied (tally_of tally)) out.new }
{
    match tally {
        Tally::Three {
            first,
            second,
            third,
        } => put_three(first, second, third, out),
        Tally::Settled { rounds, attempts } => put_settled(rounds, attempts, out),
    }
}

// Puts the line of what a cleaning did at the front, and says how long it is.
// Kept: its values in place of crate clean's `Finished`: for that one type reports would rest on clean, and by it on tape, tables and
// formula.
pub fn put_counts(
    size: u64,
    tally: Tally,
    removed: u64,
    cut: u64,
    cautioned: u64,
    out: &mut [u8],
) -> usize
    requires { 256 ≤ length out.old }
    ensures { Written out.old 0 (counts size (tally_of tally) removed cut cautioned) out.new result }
{
    let mut line = Cursor::new(out, 0);
    put_named(b"length ", size, &mut line);
    put_tally(tally, &mut line);
    put_named(b", lines removed ", removed, &mut line);
    put_named(b", results cut ", cut, &mut line);
    put_named(b", lines cautioned ", cautioned, &mut line);
    line.put(b"\n");
    line.at
}

// Puts the line of a start value at the front, and says how long it is.
pub fn put_start(chosen: &[u8], v: u64, out: &mut [u8]) -> usize
    requires { length chosen.now + 45 ≤ length out.old }
    ensures { Written out.old 0 (started chosen.now v) out.new result }
{
    let mut line = Cursor::new(out, 0);
    line.put(chosen);
    line.put(b" = 0x");
    put_digits(v, &mut line);
    put_named(b" (", v, &mut line);
    line.put(b")\n");
    line.at
}

// Puts a byte as \xHH.
fn put_escape(b: u8, out: &mut Cursor)
    requires { Fits out.old 4 }
    ensures { Puts out.old (escape b) out.new }
{
    let v = u64::from(b);
    out.put(&[b'\\', b'x', last_digit(v / 16), last_digit(v)]);
}

// Puts a byte as it is shown.
fn put_visible_byte(b: u8, out: &mut Cursor)
    requires { Fits out.old 4 }
    ensures { Puts out.old (visible_byte b) out.new }
{
    match b {
        b'\\' | 0..=31 | 127..=255 => put_escape(b, out),
        _ => out.put_byte(b),
    }
}

// Puts a name as it is shown at the front, and says how long it is.
pub fn put_visible(name: &[u8], out: &mut [u8]) -> usize
    requires { 4 * length name.now ≤ length out.old }
    ensures { Written out.old 0 (visible name.now) out.new result }
{
    let mut shown = Cursor::new(out, 0);
    for b in name {
        put_visible_byte(*b, &mut shown);
    }
    shown.at
}

// Puts a byte as \u00HH.
fn put_unicode(b: u8, out: &mut Cursor)
    requires { Fits out.old 6 }
    ensures { Puts out.old (92 ∷ 117 ∷ 48 ∷ 48 ∷ digit_byte (b / 16) ∷ digit_byte (b % 16) ∷ []) out.new }
{
    let v = u64::from(b);
    out.put(&[b'\\', b'u', b'0', b'0', last_digit(v / 16), last_digit(v)]);
}

// Puts a byte as a text of JSON has it.
fn put_quoted_byte(b: u8, out: &mut Cursor)
    requires { Fits out.old 6 }
    ensures { Puts out.old (quoted_byte b) out.new }
{
    match b {
        b'"' | b'\\' => out.put(&[b'\\', b]),
        0..=31 | 127..=255 => put_unicode(b, out),
        _ => out.put_byte(b),
    }
}

// Puts a text as it stands between the quotes of JSON at the front, and says how long that is.
pub fn put_quoted(text: &[u8], out: &mut [u8]) -> usize
    requires { 6 * length text.now ≤ length out.old }
    ensures { Written out.old 0 (quoted text.now) out.new result }
{
    let mut page = Cursor::new(out, 0);
    for b in text {
        put_quoted_byte(*b, &mut page);
    }
    page.at
}
