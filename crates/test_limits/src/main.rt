// The limits of document 01's sheet, commands that pass two of them (M-101), and the limits of the marks (M-105): for each a tape is built
// and asked the tape's questions. A line each: what the tape is, and `accepted` or `refused`, number, `at`, place. The file `stdout` has
// the answers of the Rust behind the same questions.
#![tactic(auto)]

use replays::STDOUT;

// The command of a line of indent 0.
const LINE: &[u8] = b"\x02\x00";

// A token `f`.
const TOKEN: &[u8] = b"\x10\x01\x00f";

// The example of document 01: `rax = f();` `return;`.
const EXAMPLE: &[u8] =
    b"\x02\x00\x11\x03\x00rax\x16\x03\x00 = \x14\x01\x00f\x16\x03\x00();\x02\x00\x13\x06\x00return\x16\x01\x00;\xFF";

// 03 with the addresses 10 and 20.
const MARKS: &[u8] = b"\x03\x10\x00\x00\x00\x00\x00\x00\x00\x20\x00\x00\x00\x00\x00\x00\x00";

// An addressed line with that 03 and a token.
const MARKED: &[u8] =
    b"\x01\x18\x00\x00\x00\x00\x00\x00\x00\x00\x03\x10\x00\x00\x00\x00\x00\x00\x00\x20\x00\x00\x00\x00\x00\x00\x00\x10\x01\x00f\xFF";

// A token of 24 bytes of text: 1,024 of them are 24,576.
const TOKEN_24: &[u8] = b"\x10\x18\x00aaaaaaaaaaaaaaaaaaaaaaaa";

// ---- answers

// Kept: here and not in crate replays, as in the other test programs: no clause can say what is printed, and every public function of
// this repository promises something.
fn write(s: &[u8]) {
    io::write_all(STDOUT, s);
}

fn write_number(n: usize) {
    // Kept: a cast: 64 bits hold every `usize`, and `u64::try_from` is no plainer, since it asks what to do where they do not.
    io::print_decimal(STDOUT, n as u64);
}

// Writes the answer to a tape.
// Kept: the refusal in its two numbers: to print it by its `Display` takes the runtime and gives a `Result`, which every function here
// would be passed and would pass on.
fn answer(tape: &[u8]) {
    match tape::check::<false>(tape) {
        Ok(_) => write(b": accepted\n"),
        Err(refusal) => {
            write(b": refused ");
            io::print_decimal(STDOUT, refusal.reason.number());
            write(b" at ");
            io::print_decimal(STDOUT, refusal.place);
            write(b"\n");
        }
    }
}

// ---- tapes

// The longest tape that is built.
const LONGEST: usize = 65536;

// A tape that is built command by command.
#[derive(Drop)]
struct Tape {
    bytes: [u8; LONGEST],
    length: usize, // how many of the bytes are written
}

impl Tape {
    // Begins a tape.
    fn with(first: &[u8]) -> Tape {
        let mut tape = Tape {
            bytes: [0; LONGEST],
            length: 0,
        };
        tape.put(first);
        tape
    }

    // Puts bytes behind those that are written; none where there is no room.
    // Kept: beside `put` of text's `Cursor`: that one asks its caller for the room that is looked for here, so that each function below
    // would ask for a bound on its numbers.
    fn put(&mut self, part: &[u8]) {
        let Some(behind) = self.bytes.get_mut(self.length..) else {
            return;
        };
        let Some(room) = behind.get_mut(..part.len()) else {
            return;
        };
        room.copy_from_slice(part);
        self.length += part.len();
    }

    fn put_times(&mut self, part: &[u8], times: usize) {
        for _ in 0..times {
            self.put(part);
        }
    }

    // Puts a token, of a command's kind, whose text is a byte many times.
    fn put_token(&mut self, command: u8, byte: u8, times: usize) {
        let [low, high, ..] = times.to_le_bytes();
        self.put(&[command, low, high]);
        self.put_times(&[byte], times);
    }

    // Writes the answer to the tape as it is.
    fn answer(&self) {
        if let Some(tape) = self.bytes.get(..self.length) {
            answer(tape);
        }
    }

    // Ends the tape, and writes the answer to it.
    fn finish(&mut self) {
        self.put(b"\xFF");
        self.answer();
    }
}

// ---- limits

fn lines(count: usize) {
    write_number(count);
    write(b" lines");
    let mut tape = Tape::with(&[]);
    tape.put_times(LINE, count);
    tape.finish();
}

fn indent(depth: u8) {
    write(b"indent ");
    write_number(usize::from(depth));
    answer(&[0x02, depth, 0xFF]);
}

fn tokens(count: usize) {
    write_number(count);
    write(b" tokens");
    let mut tape = Tape::with(LINE);
    tape.put_times(TOKEN, count);
    tape.finish();
}

fn text_bytes(count: usize) {
    write_number(count);
    write(b" bytes of text");
    let mut tape = Tape::with(LINE);
    tape.put_token(0x10, b'a', count);
    tape.finish();
}

// The bytes of all texts count, not those of each.
fn text_in_two(count: usize) {
    write_number(count);
    write(b" bytes of text and 1 more");
    let mut tape = Tape::with(LINE);
    tape.put_token(0x10, b'a', count);
    tape.put(TOKEN);
    tape.finish();
}

fn number(count: usize) {
    write(b"Number of ");
    write_number(count);
    let mut tape = Tape::with(LINE);
    tape.put_token(0x12, b'5', count);
    tape.finish();
}

fn byte(b: u8) {
    write(b"byte ");
    write_number(usize::from(b));
    answer(&[0x02, 0x00, 0x10, 0x01, 0x00, b, 0xFF]);
}

// ---- one of each refusal, where several questions would refuse

fn refusals() {
    write(b"no byte");
    answer(&[]);
    write(b"no command");
    answer(b"\x02\x00\x18\x01\x00f\xFF");
    write(b"no end");
    answer(b"\x02\x00");
    write(b"cut off before a line");
    answer(b"\x10\x02\x00f");
    write(b"more announced than there is");
    answer(b"\x02\x00\x10\xFF\xFFf");
    write(b"empty before a line");
    answer(b"\x10\x00\x00\xFF");
    write(b"empty");
    answer(b"\x02\x00\x10\x00\x00\xFF");
    write(b"after the end");
    answer(b"\x02\x00\xFF\x00");
    write(b"end alone");
    answer(b"\xFF");
}

// ---- marks

// A line with a 03 from `low` to `high`.
fn span(low: u8, high: u8) {
    write(b"03 from ");
    write_number(usize::from(low));
    write(b" to ");
    write_number(usize::from(high));
    let mut tape = Tape::with(LINE);
    tape.put(b"\x03");
    tape.put(&u64::from(low).to_le_bytes());
    tape.put(&u64::from(high).to_le_bytes());
    tape.finish();
}

// So many 03s after a line's command.
fn marks(count: usize) {
    write_number(count);
    write(b" times 03");
    let mut tape = Tape::with(LINE);
    tape.put_times(MARKS, count);
    tape.finish();
}

// A tape with a 03 put in after its first n bytes.
fn marks_after(tape: &[u8], n: usize) {
    let Some((front, behind)) = tape.split_at_checked(n) else {
        return;
    };
    write(b"example, 03 after ");
    write_number(n);
    write(b" bytes");
    let mut tape = Tape::with(front);
    tape.put(MARKS);
    tape.put(behind);
    tape.answer();
}

// A tape with a 03 put in, at every offset in turn.
fn marks_everywhere(tape: &[u8]) {
    for n in 0..=tape.len() {
        marks_after(tape, n);
    }
}

// ---- two limits passed by one command, and the place of 7

fn line_257(indent: u8) {
    write(b"line 257, indent ");
    write_number(usize::from(indent));
    let mut tape = Tape::with(&[]);
    tape.put_times(LINE, 256);
    tape.put(&[0x02, indent]);
    tape.finish();
}

// A line with 1,024 tokens, all alike, then one more.
fn token_1025(token: &[u8], last: &[u8]) {
    let mut tape = Tape::with(LINE);
    tape.put_times(token, 1024);
    tape.put(last);
    tape.finish();
}

// A line with a text of 24,576 bytes, then a token of a command's kind whose text is a byte many times.
fn past_text(command: u8, byte: u8, times: usize) {
    let mut tape = Tape::with(LINE);
    tape.put_token(0x10, b'a', 24576);
    tape.put_token(command, byte, times);
    tape.finish();
}

fn last_tokens() {
    write(b"token 1025, empty");
    token_1025(TOKEN, b"\x10\x00\x00");
    write(b"token 1025, not printable");
    token_1025(TOKEN, b"\x10\x01\x00\x07");
    write(b"token 1025, past the text");
    token_1025(TOKEN_24, TOKEN);
    write(b"token 1025, past the text, a Number of 25");
    token_1025(TOKEN_24, b"\x12\x19\x005555555555555555555555555");
}

fn last_texts() {
    write(b"past the text, a Number of 24");
    past_text(0x12, b'5', 24);
    write(b"past the text, a Number of 25");
    past_text(0x12, b'5', 25);
    write(b"past the text, not printable");
    past_text(0x10, 0x07, 1);
    write(b"past the text, empty");
    past_text(0x10, 0x07, 0);
}

fn first_offending() {
    write(b"second byte");
    answer(b"\x02\x00\x10\x02\x00A\x07\xFF");
    write(b"first and third byte");
    answer(b"\x02\x00\x10\x03\x00\x1FA\x7F\xFF");
    write(b"third byte of the second token");
    answer(b"\x02\x00\x10\x01\x00f\x11\x03\x00ra\xFF\xFF");
    write(b"in a Number of 25");
    answer(b"\x02\x00\x12\x19\x00\x07555555555555555555555555\xFF");
}

// ---- truncations

fn truncation(what: &[u8], tape: &[u8], n: usize) {
    let Some(front) = tape.get(..n) else {
        return;
    };
    write(what);
    write(b", ");
    write_number(n);
    write(b" bytes");
    answer(front);
}

// Every truncation of a tape, and the whole.
fn truncations(what: &[u8], tape: &[u8]) {
    for n in 0..=tape.len() {
        truncation(what, tape, n);
    }
}

fn main() {
    lines(256);
    lines(257);
    indent(63);
    indent(64);
    tokens(1024);
    tokens(1025);
    text_bytes(24576);
    text_bytes(24577);
    text_in_two(24575);
    text_in_two(24576);
    number(24);
    number(25);
    byte(0x1F);
    byte(0x20);
    byte(0x7E);
    byte(0x7F);
    refusals();
    line_257(63);
    line_257(64);
    last_tokens();
    last_texts();
    first_offending();
    truncations(b"example", EXAMPLE);
    span(0, 0);
    span(16, 32);
    span(32, 16);
    marks(1);
    marks(2);
    marks_everywhere(EXAMPLE);
    truncations(b"marked", MARKED);
}
