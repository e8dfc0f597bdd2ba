// Replays a list of calls of request M-103 with the oracle's answers (tests/editions), from standard input. Prints for each way how
// many calls there are and how many differ. A call's answer is compared and every byte that it was lent: the new tape, what lies past it,
// and that a refused call changed nothing.
//
// The list: frames one after the other. A frame is seven numbers of four bytes, the lowest first, then the tape of a call, then the new
// tape that is wanted. The numbers: the frame's own length; the way (0 down, 1 up); the lengths of the output and of the tape; and the
// wanted refusal, place and length of the new tape.
#![tactic(auto)]

ghost use Rattle.std.specs.Prelude.{◌≤◌, ◌<◌, length};
ghost use Rattle.std.specs.Option.{IfSome};

use answers::Told;
use editions::{to_2018, to_2024};
use replays::{Counts, MARK, STDIN, STDOUT, is_output, size_at};
use tape::little_endian::number_at;

// The longest list that is read.
const LONGEST: usize = 150000;

// The longest output that is lent.
const ROOM: usize = 36000;

// ---- the list

#[derive(Clone, Copy, Debug, PartialEq, Eq)]
struct Frame<'a> {
    up: bool,
    output: usize,
    told: Told,
    tape: &'a [u8],
    new: &'a [u8],
}

// How many bytes the frame at the list's front has, by its first number; none where no whole one stands there.
fn size(list: &[u8]) -> Option<usize>
    ensures { IfSome result (λ n. (0 < n) × (n ≤ length list.now)) }
{
    let (numbers, _) = list.split_first_chunk::<28>()?;
    let n = size_at(numbers, 0, 4);
    (0 < n && n <= list.len()).then_some(n)
}

// What the frame at the list's front says; none where the list is shorter than its numbers and the two tapes.
fn read(list: &[u8]) -> Option<Frame<'_>> {
    let (numbers, rest) = list.split_first_chunk::<28>()?;
    let (tape, rest) = rest.split_at_checked(size_at(numbers, 12, 4))?;
    let (new, _) = rest.split_at_checked(size_at(numbers, 24, 4))?;
    Some(Frame {
        up: number_at(numbers, 4, 4) == 1,
        output: size_at(numbers, 8, 4),
        told: Told {
            refusal: number_at(numbers, 16, 4),
            place: number_at(numbers, 20, 4),
            value: number_at(numbers, 24, 4),
        },
        tape,
        new,
    })
}

// ---- a call

fn call(up: bool, tape: &[u8], out: &mut [u8]) -> Told {
    Told::from(if up {
        to_2024(tape, out)
    } else {
        to_2018(tape, out)
    })
}

// Makes a call, and says whether it did what is wanted.
fn does(f: Frame<'_>, out: &mut [u8]) -> bool {
    let n = f.output;
    if out.len() < n {
        return false;
    }
    let told = call(f.up, f.tape, &mut out[..n]);
    told == f.told && is_output(out, f.new)
}

// Whether the call of a frame does what the frame wants.
fn agrees(f: Frame<'_>) -> bool {
    does(f, &mut [MARK; ROOM])
}

// ---- all calls

// Whether the call of the frame at the list's front does what the frame wants; none where it goes the other way. A frame that cannot be
// read differs.
fn does_way(list: &[u8], up: bool) -> Option<bool> {
    let (numbers, _) = list.split_first_chunk::<28>()?;
    if (number_at(numbers, 4, 4) == 1) != up {
        return None;
    }
    match read(list) {
        Some(f) => Some(agrees(f)),
        None => Some(false),
    }
}

// Replays the calls that go one way.
// Kept: a loop of its own beside that of crate replays, which hands over a frame alone: here a part of a frame may lie behind it.
fn replayed(list: &[u8], up: bool) -> Counts
    requires { length list.now ≤ 150000 }
{
    let mut left = list;
    let mut counts = Counts {
        calls: 0,
        differ: 0,
    };
    while let Some(n) = size(left) {
        if let Some(right) = does_way(left, up) {
            counts = counts.with(right);
        }
        left = &left[n..];
    }
    counts
}

// Kept: here and not in crate replays, as in the other test programs: no clause can say what is printed, and every public function of
// this repository promises something.
fn print(s: &[u8]) {
    io::write_all(STDOUT, s);
}

fn print_counts(way: &[u8], counts: Counts) {
    print(way);
    io::print_decimal(STDOUT, counts.calls);
    print(b" calls, ");
    io::print_decimal(STDOUT, counts.differ);
    print(b" differ\n");
}

fn main() {
    let mut input = [0u8; LONGEST];
    let n = io::read_full(STDIN, &mut input);
    print_counts(b"down: ", replayed(&input[..n], false));
    print_counts(b"up: ", replayed(&input[..n], true));
}
