// The questions, and what this repository answers. Words stand one space apart, and a word may be empty.
//
//     family NAME                 its family and width, or `none`
//     number TEXT                 its value in edition 0, as folding prints it, or `unread`
//     sum TEXT TEXT               likewise
//     difference TEXT TEXT        likewise
//     volatile CONVENTION NAME    whether a call overwrites the register: `yes` or `no`
//     constant TEXT               its value in edition 1, or `unread`
//
// An answer is written at the front of a slice of the caller's, and its length returned.
ghost use Rattle.std.specs.Prelude.{◌≡◌, ◌+◌, ◌≤◌, ◌<◌, length};
ghost use Rattle.reference.specs.Options.{option_of};
ghost use Rattle.reference.specs.Control.{◌or◌};
ghost use Rattle.reference.specs.Text.{bytes, ◌≟◌};
ghost use Rattle.names.specs.Families.{row_name};
ghost use Rattle.text.specs.Cursor.{Written, Fits, Puts};
ghost use Rattle.test_leaves.specs.Answers.{register, family_answer, value, combined, convention, overwrites, yes_no};
ghost use Rattle.test_leaves.specs.Answers.{answer_to, answer};
ghost use Rattle.test_leaves.specs.Answers.{expected};
ghost use Rattle.test_leaves.specs.Questions.{one_operand, Asks};

use crate::fields::{before, behind};
use names::Spelled;
use printing::put_decimal;
use text::{Cursor, same};

// The families of the table of `names`, by row.
const ROWS: [[u8; 3]; 8] = [
    *b"rax", *b"rbx", *b"rcx", *b"rdx", *b"rsi", *b"rdi", *b"rbp", *b"rsp",
];

fn put_register(family: &[u8], width: u64, out: &mut Cursor)
    requires { Fits out.old (length family.now + 21) }
    ensures { Puts out.old (register family.now width) out.new }
{
    out.put(family);
    out.put(b" ");
    put_decimal(width, out);
}

fn put_row(row: u64, width: u64, out: &mut Cursor)
    requires { (row < 8) × Fits out.old 24 }
    ensures { Puts out.old (register (row_name row) width) out.new }
{
    // Kept: a cast: a row is below 8, and `usize::try_from` is no plainer, since it asks what to do where it is not.
    put_register(&ROWS[row as usize], width, out);
}

fn put_family(name: &[u8], out: &mut Cursor)
    requires { Fits out.old (length name.now + 24) }
    ensures { Puts out.old (family_answer name.now) out.new }
{
    match names::family(name) {
        Some(Spelled::Row { row, width, .. }) => put_row(row, width, out),
        Some(Spelled::Front { length, width }) => put_register(&name[..length], width, out),
        None => out.put(b"none"),
    }
}

fn put_value(n: Option<i64>, out: &mut Cursor)
    requires { Fits out.old 19 }
    ensures { Puts out.old (value (option_of n)) out.new }
{
    match n {
        Some(v) => numbers::put_number(v, out),
        None => out.put(b"unread"),
    }
}

// a + b or a - b
fn folded(a: &[u8], b: &[u8], minus: bool) -> Option<i64>
    ensures { option_of result ≡ combined minus a.now b.now }
{
    let x = numbers::parse_c_number(a)?;
    let y = numbers::parse_c_number(b)?;
    if minus {
        Some(numbers::wrapping_sub(x, y))
    } else {
        Some(numbers::wrapping_add(x, y))
    }
}

// Kept: tests in a row: tried as a `match` on the bytes; the search leaves all five goals of its arms open, which speak of single bytes.
fn convention(s: &[u8]) -> u8
    ensures { result ≡ convention s.now }
{
    if same(s, b"0") {
        0
    } else if same(s, b"1") {
        1
    } else {
        2
    }
}

fn overwrites(convention: u8, name: &[u8]) -> bool
    ensures { result ≡ overwrites convention name.now }
{
    match names::family(name) {
        Some(Spelled::Row { row, .. }) => names::overwritten(row, convention),
        Some(Spelled::Front { length, .. }) => match names::number_of(&name[..length]) {
            Some(number) => names::overwritten(number, convention),
            None => false,
        },
        None => false,
    }
}

fn put_yes_no(b: bool, out: &mut Cursor)
    requires { Fits out.old 3 }
    ensures { Puts out.old (yes_no b) out.new }
{
    if b {
        out.put(b"yes");
    } else {
        out.put(b"no");
    }
}

#[derive(Clone, Copy)]
enum Question {
    Family,
    Number,
    Sum,
    Difference,
    Volatile,
    Constant,
}

impl Question {
    // One operand, and not two.
    fn has_one_operand(self) -> bool
        ensures { result ≡ one_operand self }
    {
        matches!(
            self,
            Question::Family | Question::Number | Question::Constant
        )
    }
}

// The question that a word asks.
// Kept: tests in a row: no plainer as a table: the six rows stay, and the search in such a table and the law of what it finds are crate
// arguments', so this program would rest on the command's words.
fn asked(word: &[u8]) -> Option<Question>
    ensures { Asks word.now result }
{
    if same(word, b"family") {
        Some(Question::Family)
    } else if same(word, b"number") {
        Some(Question::Number)
    } else if same(word, b"sum") {
        Some(Question::Sum)
    } else if same(word, b"difference") {
        Some(Question::Difference)
    } else if same(word, b"volatile") {
        Some(Question::Volatile)
    } else if same(word, b"constant") {
        Some(Question::Constant)
    } else {
        None
    }
}

// Puts the answer to a word's question with the operands a and b.
fn put_answer_to(word: &[u8], a: &[u8], b: &[u8], out: &mut Cursor)
    requires { Fits out.old (length a.now + 24) }
    ensures { Puts out.old (answer_to word.now a.now b.now) out.new }
{
    let Some(question) = asked(word) else {
        out.put(b"no such question");
        return;
    };
    match question {
        Question::Family => put_family(a, out),
        Question::Number => put_value(numbers::parse_c_number(a), out),
        Question::Sum => put_value(folded(a, b, false), out),
        Question::Difference => put_value(folded(a, b, true), out),
        Question::Volatile => put_yes_no(overwrites(convention(a), b), out),
        Question::Constant => put_value(numbers::read_number(1, a), out),
    }
}

// Writes the answer to the line's question at the front of `out`, and says how long it is: at most 24 bytes more than the line.
pub fn put_answer(line: &[u8], out: &mut [u8]) -> usize
    requires { length line.now + 24 ≤ length out.old }
    ensures { Written out.old 0 (answer line.now) out.new result }
{
    let mut out = Cursor::new(out, 0);
    let words = behind(line, b' ');
    put_answer_to(
        before(line, b' '),
        before(words, b' '),
        before(behind(words, b' '), b' '),
        &mut out,
    );
    out.at
}

// Whether a word asks a question with one operand, and not two.
fn asks_one_operand(word: &[u8]) -> bool
    ensures { result ≡ ((word.now ≟ bytes "family") or (word.now ≟ bytes "number") or (word.now ≟ bytes "constant")) }
{
    match asked(word) {
        Some(question) => question.has_one_operand(),
        None => false,
    }
}

// The answer on the line: all that stands behind the question.
pub fn expected(line: &[u8]) -> &[u8]
    ensures { result.now ≡ expected line.now }
{
    let question = before(line, b' ');
    let answer = behind(behind(line, b' '), b' ');
    if asks_one_operand(question) {
        answer
    } else {
        behind(answer, b' ')
    }
}
