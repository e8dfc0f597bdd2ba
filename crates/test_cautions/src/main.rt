// Replays listings with their cautions (tests/cautions), from standard input: the sets are those of another implementation, and the
// refusals are written by hand. Prints for each class of calls how many there are and how many differ, and what differs. A call's answer
// is compared and every byte that it was lent: the output and what lies past it, both work areas, and that a refused call changed nothing.
//
// The list: frames one after the other. A frame is twelve numbers of eight bytes, the lowest first, then the tape of a call, then the
// bytes that are wanted. The numbers: the frame's own length; its class; convention and number edition; the other settings (1 to settle,
// 2 for parts, 4 for the profile, added up); the lengths of both work areas and of the output; the wanted refusal and its place, 0 where
// none is wanted; and the lengths of the tape and of the wanted bytes.
#![tactic(auto)]

ghost use Rattle.std.specs.Prelude.{◌≤◌, length};

use answers::Told;
use ground::rules::Rules;
use puchkewa::cautions;
use replays::{Counts, MARK, STDIN, STDOUT, is_output, size_at};
use tape::little_endian::number_at;

// The longest list that is read.
const LONGEST: usize = 150000;

// What is lent are parts of so many bytes, and every byte of them is the mark before the call.
const LONG_WORK: usize = 49200;

const LONG_OUT: usize = 600;

// How many bytes of a work area a finished call leaves zero.
const WORK: usize = 49152;

// Kept: here and not in crate replays, as in the other test programs: no clause can say what is printed, and every public function of
// this repository promises something.
fn print(s: &[u8]) {
    io::write_all(STDOUT, s);
}

// ---- the list

#[derive(Clone, Copy)]
struct Frame<'a> {
    rules: Rules,
    work_a: usize,
    work_b: usize,
    out: usize,
    refusal: u64,
    place: u64,
    tape: &'a [u8],
    wanted: &'a [u8],
}

// The settings of a frame; none where a number is no setting's.
fn settings(numbers: &[u8; 96]) -> Option<Rules> {
    let n = number_at(numbers, 32, 8);
    Some(Rules {
        convention: u8::try_from(number_at(numbers, 16, 8)).ok()?,
        settle: n % 2 == 1,
        edition: u8::try_from(number_at(numbers, 24, 8)).ok()?,
        parts: n / 2 % 2 == 1,
        profile: n / 4 % 2 == 1,
    })
}

// What a frame of the list says; none where it is shorter than its numbers and the two parts behind them.
fn read(frame: &[u8]) -> Option<Frame<'_>> {
    let (numbers, rest) = frame.split_first_chunk::<96>()?;
    let (tape, rest) = rest.split_at_checked(size_at(numbers, 80, 8))?;
    let (wanted, _) = rest.split_at_checked(size_at(numbers, 88, 8))?;
    Some(Frame {
        rules: settings(numbers)?,
        work_a: size_at(numbers, 40, 8),
        work_b: size_at(numbers, 48, 8),
        out: size_at(numbers, 56, 8),
        refusal: number_at(numbers, 64, 8),
        place: number_at(numbers, 72, 8),
        tape,
        wanted,
    })
}

// ---- a call

// Whether each byte is this one.
fn all_are(bytes: &[u8], byte: u8) -> bool {
    bytes.iter().all(|&b| b == byte)
}

// Whether a work area is as the frame wants it: untouched by a refusal, otherwise zero at its front.
fn is_work(f: &Frame<'_>, work: &[u8]) -> bool {
    if f.refusal != 0 {
        return all_are(work, MARK);
    }
    match work.split_at_checked(WORK) {
        Some((front, behind)) => all_are(front, 0) && all_are(behind, MARK),
        None => false,
    }
}

// What is wanted of the answer.
fn wanted(f: &Frame<'_>) -> Told {
    // Kept: there is no `From` from usize to u64, and `try_from` has a branch that no length takes.
    let value = f.wanted.len() as u64;
    Told {
        refusal: f.refusal,
        place: f.place,
        value,
    }
}

// Whether the answer and the three parts are as wanted; what is not is named.
fn is_right(f: &Frame<'_>, told: Told, work_a: &[u8], work_b: &[u8], out: &[u8]) -> bool {
    if told != wanted(f) {
        print(b"another answer\n");
        return false;
    }
    if !is_output(out, f.wanted) {
        print(b"another output\n");
        return false;
    }
    if !is_work(f, work_a) || !is_work(f, work_b) {
        print(b"another work area\n");
        return false;
    }
    true
}

// Makes the call of a frame in lent parts, and says whether it did what is wanted.
fn does(f: &Frame<'_>, work_a: &mut [u8], work_b: &mut [u8], out: &mut [u8]) -> bool {
    let (a, b, o) = (f.work_a, f.work_b, f.out);
    if work_a.len() < a || work_b.len() < b || out.len() < o {
        return false;
    }
    let answer = cautions(
        f.rules,
        f.tape,
        &mut work_a[..a],
        &mut work_b[..b],
        &mut out[..o],
    );
    is_right(f, Told::from(answer), work_a, work_b, out)
}

fn agrees(f: &Frame<'_>) -> bool {
    does(
        f,
        &mut [MARK; LONG_WORK],
        &mut [MARK; LONG_WORK],
        &mut [MARK; LONG_OUT],
    )
}

// ---- all calls

// The class of a frame; none where it has no number of one.
fn class_of(frame: &[u8]) -> Option<u64> {
    let (numbers, _) = frame.split_first_chunk::<16>()?;
    Some(number_at(numbers, 8, 8))
}

// Whether the call of a frame does what the frame wants; none where the frame is of another class. A frame that cannot be read differs, and
// so does one that has no class, in each.
fn does_class(frame: &[u8], class: u64) -> Option<bool> {
    if class_of(frame).is_some_and(|c| c != class) {
        return None;
    }
    Some(match read(frame) {
        Some(f) => agrees(&f),
        None => false,
    })
}

// Replays the calls of a class, and prints how many there are and how many differ.
fn run(list: &[u8], class: u64, what: &[u8])
    requires { length list.now ≤ 150000 }
{
    let counts: Counts = replays::replayed(list, 8, |frame| does_class(frame, class));
    print(what);
    io::print_decimal(STDOUT, counts.calls);
    print(b" calls, ");
    io::print_decimal(STDOUT, counts.differ);
    print(b" differ\n");
}

fn main() {
    let mut input = [0u8; LONGEST];
    let n = io::read_full(STDIN, &mut input);
    let list = &input[..n];
    run(list, 0, b"rows of the page: ");
    run(list, 1, b"harmless: ");
    run(list, 2, b"generated: ");
    run(list, 3, b"straight pieces: ");
    run(list, 4, b"compiled-looking: ");
    run(list, 5, b"the sample: ");
    run(list, 6, b"at the limits: ");
    run(list, 7, b"refused: ");
}
