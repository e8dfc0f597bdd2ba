// A command of a tape as text, to read and in the exact form.
ghost use Rattle.std.specs.Prelude.{◌≡◌, ◌≤◌, ◌-◌, ◌∷◌, [], ◌++◌, get_or};
ghost use Rattle.reference.specs.Options.{option_of};
ghost use Rattle.printing.specs.Decimals.{decimal};
ghost use Rattle.tape.specs.Commands.{command_in};
ghost use Rattle.listing_text.specs.Room.{Puts};
ghost use Rattle.listing_text.specs.Forms.{line_end, hexadecimal, enough, blanks, letters, exact_command, exact_address, read_address};
ghost use Rattle.listing_text.specs.Forms.{own_span, span_text, span_of, marks_of, marks_at, read_command_text, command_text, TokenEnds};

use crate::room::Clipped;
use lines::marks::Marks;
use tape::commands::Command;
use tape::questions::Advance;
use tape::reader::command_at;

// ---- pieces

// Puts so many hexadecimal digits, or as many more as it takes.
// Kept: beside crate render's: one function would want a trait over a page, whose puts answer nothing, and a file, whose puts may fail;
// that is no plainer for three lines each.
fn put_hex(n: u64, least: usize, out: &mut Clipped)
    requires { (1 ≤ least) × (least ≤ 16) }
    ensures { Puts out.old (hexadecimal (enough (16 - least) least n) n) out.new }
{
    let mut digits = [0u8; 16];
    let k = io::hex(n, least, &mut digits);
    out.put(&digits[..k]);
}

// Kept: beside crate printing's, which puts onto a `Cursor`: a trait over the two is no plainer, since the one has to have room and the
// other does not, so each call would stand under two clauses.
fn put_decimal(n: u64, out: &mut Clipped)
    ensures { Puts out.old (decimal n) out.new }
{
    let mut digits = [0u8; 20];
    let k = io::decimal(n, &mut digits);
    out.put(&digits[..k]);
}

// Ends the line before, if there is one.
pub fn put_line_end(at: usize, out: &mut Clipped)
    ensures { Puts out.old (line_end at) out.new }
{
    if at != 0 {
        out.put_byte(b'\n');
    }
}

// Puts two blanks for each indent.
fn put_blanks(indent: u64, out: &mut Clipped)
    ensures { Puts out.old (blanks indent) out.new }
{
    for _ in 0..indent {
        out.put(b"  ");
    }
}

// ---- exact

// By kind: Text, Register, Number, Keyword, Symbol, Address, Punct, Prefix.
pub const LETTERS: [u8; 8] = *b"trnksapx";

// The letter of a kind; 0 for a number that is none.
// Kept: 0 and no `Option`: the definition of the text (`get_or letters kind 0`) has a byte there for every number, so the one caller would
// have to put the 0 itself.
fn letter_of(kind: u64) -> u8
    ensures { result ≡ get_or letters kind 0 }
{
    match usize::try_from(kind) {
        Ok(k) => LETTERS.get(k).copied().unwrap_or(0),
        Err(_) => 0,
    }
}

// Puts a tab, the letter of a kind, a colon and a text.
fn put_token(kind: u64, text: &[u8], out: &mut Clipped)
    ensures { Puts out.old ((9 ∷ get_or letters kind 0 ∷ 58 ∷ []) ++ text.now) out.new }
{
    out.put(&[b'\t', letter_of(kind), b':']);
    out.put(text);
}

// Puts a tab, and marks.
fn put_marks(low: u64, high: u64, out: &mut Clipped)
    ensures { Puts out.old
        ((9 ∷ 109 ∷ 58 ∷ []) ++ hexadecimal 16 low ++ (46 ∷ 46 ∷ []) ++ hexadecimal 16 high) out.new }
{
    out.put(b"\tm:");
    put_hex(low, 16, out);
    out.put(b"..");
    put_hex(high, 16, out);
}

// Puts a line's command.
fn put_exact_line(at: usize, address: Option<u64>, indent: u64, out: &mut Clipped)
    ensures { Puts out.old (line_end at ++ exact_address (option_of address) ++ (9 ∷ decimal indent)) out.new }
{
    put_line_end(at, out);
    match address {
        Some(address) => put_hex(address, 16, out),
        None => out.put(b"-"),
    }
    out.put(b"\t");
    put_decimal(indent, out);
}

// Puts the command that stands at an offset.
fn put_exact(tape: &[u8], at: usize, advance: Advance, out: &mut Clipped)
    requires { TokenEnds tape.now at advance.next advance.command }
    ensures { Puts out.old (exact_command at (command_in tape.now at advance.command)) out.new }
{
    match advance.command {
        Command::Addressed { address, indent } => put_exact_line(at, Some(address), indent, out),
        Command::Plain { indent } => put_exact_line(at, None, indent, out),
        Command::Marked { low, high } => put_marks(low, high, out),
        Command::Token { kind, .. } => put_token(kind, &tape[at + 3..advance.next], out),
        Command::End => put_line_end(at, out),
    }
}

// ---- to read

// What a line's address says; of a line without one nothing, from 1 to 0.
// Kept: marks from 1 to 0, not an `Option`: such marks behind a line without an address say what the line says and are left out; with an
// `Option` in place of `own` they would be put, and the text to read would change.
fn own_span(address: Option<u64>) -> Marks
    ensures { span_of result ≡ own_span (option_of address) }
{
    match address {
        Some(address) => Marks {
            low: address,
            high: address,
        },
        None => Marks { low: 1, high: 0 },
    }
}

// The marks that stand at an offset, if any.
fn marks_at(tape: &[u8], at: usize) -> Option<Marks>
    ensures { marks_of result ≡ marks_at tape.now at }
{
    match command_at::<false>(tape, at).ok()? {
        Command::Marked { low, high } => Some(Marks { low, high }),
        _ => None,
    }
}

// Puts marks, unless they say just what the line's address does.
fn put_span(own: Marks, marks: Option<Marks>, out: &mut Clipped)
    ensures { Puts out.old (span_text (span_of own) (marks_of marks)) out.new }
{
    if let Some(span) = marks {
        if span == own {
            return;
        }
        put_hex(span.low, 8, out);
        out.put(b"..");
        put_hex(span.high, 8, out);
        out.put(b" ");
    }
}

// Puts a line's command.
fn put_readable_line(
    tape: &[u8],
    at: usize,
    next: usize,
    address: Option<u64>,
    indent: u64,
    out: &mut Clipped,
)
    ensures { Puts out.old
        (line_end at ++ span_text (own_span (option_of address)) (marks_at tape.now next)
        ++ read_address (option_of address) ++ blanks indent) out.new }
{
    put_line_end(at, out);
    put_span(own_span(address), marks_at(tape, next), out);
    match address {
        Some(address) => {
            put_hex(address, 8, out);
            out.put(b"  ");
        }
        None => out.put(b"          "),
    }
    put_blanks(indent, out);
}

// Puts the command that stands at an offset.
fn put_readable(tape: &[u8], at: usize, advance: Advance, out: &mut Clipped)
    requires { TokenEnds tape.now at advance.next advance.command }
    ensures { Puts out.old
        (read_command_text at (marks_at tape.now advance.next) (command_in tape.now at advance.command)) out.new }
{
    let next = advance.next;
    match advance.command {
        Command::Addressed { address, indent } => put_readable_line(
            tape,
            at,
            next,
            Some(address),
            indent,
            out,
        ),
        Command::Plain { indent } => put_readable_line(tape, at, next, None, indent, out),
        Command::Marked { .. } => {}
        Command::Token { .. } => out.put(&tape[at + 3..next]),
        Command::End => put_line_end(at, out),
    }
}

// ---- either

// Puts the command that stands at an offset in either form.
pub fn put_command(tape: &[u8], at: usize, advance: Advance, exact: bool, out: &mut Clipped)
    requires { TokenEnds tape.now at advance.next advance.command }
    ensures { Puts out.old (command_text exact tape.now at advance.next (command_in tape.now at advance.command)) out.new }
{
    if exact {
        put_exact(tape, at, advance, out);
    } else {
        put_readable(tape, at, advance, out);
    }
}
