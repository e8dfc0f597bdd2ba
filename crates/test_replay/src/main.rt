// Replays a list of calls with the answers of the Rust (tests/replay), from standard input. Prints for each class of calls how many there
// are and how many differ, what differs, and the sum. A call's reply is compared and every byte that it was lent: the output and what
// lies past it, both work areas, and that a refused call changed nothing.
#![tactic(auto)]

mod calls; // one call
mod frames; // the list

ghost use Rattle.std.specs.Prelude.{◌≡◌, ◌+◌, ◌≤◌, length};
ghost use Rattle.test_replay.specs.Tallies.{counted, replayed};

use calls::agrees_marked;
use frames::{CLASS, Frame, number, size};
use replays::{Counts, STDIN, STDOUT};

// The longest list that is read.
const LONGEST: usize = 650000;

// The classes of calls: number and name.
const CLASSES: [(u64, &[u8]); 12] = [
    (0, b"realistic: "),
    (1, b"one detail of the Rust: "),
    (2, b"unusual tokens: "),
    (3, b"much text in the areas: "),
    (4, b"at the limits: "),
    (5, b"damaged: "),
    (6, b"refused before the tape: "),
    (7, b"settling: "),
    (8, b"marks: "),
    (9, b"editions: "),
    (10, b"parts: "),
    (11, b"straight pieces: "),
];

// Kept: here and not in crate replays, as in the other test programs: no clause can say what is printed, and every public function of
// this repository promises something.
fn print(s: &[u8]) {
    io::write_all(STDOUT, s);
}

fn print_number(n: u64) {
    io::print_decimal(STDOUT, n);
}

fn print_counts(counts: Counts) {
    print_number(counts.calls);
    print(b" tapes, ");
    print_number(counts.differ);
    print(b" differ\n");
}

// The counts with a frame, if it is of the class.
fn counted(frame: &Frame<'_>, class: u64, counts: Counts) -> Counts
    requires { (counts.calls ≤ 650000) × (counts.differ ≤ counts.calls) }
    ensures value { result ≡ counted frame.now.list.now class counts }
    ensures differ_le_calls { (result.differ ≤ result.calls) × (result.calls ≤ counts.calls + 1) }
{
    if number(frame.list, CLASS) != class {
        return counts;
    }
    counts.with(agrees_marked(frame))
}

// Replays the frames of a class.
// Kept: a loop of its own beside that of crate replays, which is for frames that begin with their length and promises no value: those of
// this list do not, and the value is promised here.
fn replayed(list: &[u8], class: u64) -> Counts
    requires { length list.now ≤ 650000 }
    ensures value { result ≡ replayed list.now class }
    ensures differ_le_calls { (result.differ ≤ result.calls) × (result.calls ≤ length list.now) }
{
    let mut left = list;
    let mut counts = Counts {
        calls: 0,
        differ: 0,
    };
    while let Some(n) = size(left) {
        counts = counted(&Frame { list: left }, class, counts);
        left = &left[n..];
    }
    counts
}

// Replays the frames of every class, a line each, and prints the sum.
fn run(list: &[u8]) {
    if LONGEST < list.len() {
        return;
    }
    let mut sum = Counts {
        calls: 0,
        differ: 0,
    };
    for &(class, name) in &CLASSES {
        let counts = replayed(list, class);
        print(name);
        print_counts(counts);
        sum = Counts {
            calls: sum.calls + counts.calls,
            differ: sum.differ + counts.differ,
        };
    }
    print_counts(sum);
}

fn main(rt: HostRuntime) {
    match vec![in rt.alloc(); 0u8; LONGEST] {
        Ok(mut input) => {
            let n = io::read_full(STDIN, &mut input);
            run(&input[..n]);
        }
        Err(_) => print(b"no memory is left\n"),
    }
}
