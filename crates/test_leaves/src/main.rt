// Asks the crates `names` and `numbers` the questions of standard input, one a line, each with the Rust's answer behind it
// (tests/leaves). Prints each line whose answer is another here, with that answer, and last how many lines there were and how many
// differ. Input past 65,536 bytes is not read.
#![tactic(auto)]

mod asking; // the questions, and what this repository answers
mod fields; // parts of a text between separators

ghost use Rattle.std.specs.Prelude.{◌≡◌, ◌+◌, ◌≤◌, length};
ghost use Rattle.reference.specs.Text.{◌≟◌};
ghost use Rattle.test_leaves.specs.Fields.{lines};
ghost use Rattle.test_leaves.specs.Answers.{answer, expected, differing};

use asking::{expected, put_answer};
use fields::before;
use replays::{Counts, STDIN, STDOUT};

// Kept: in each test program: no clause can say what is printed, and every public function of this repository promises something.
fn print(s: &[u8]) {
    io::write_all(STDOUT, s);
}

// Whether the answer is the one on the line; prints both where it is not.
fn agrees(line: &[u8], out: &mut [u8]) -> bool
    requires { length line.now + 24 ≤ length out.old }
    ensures { result ≡ (expected line.now ≟ answer line.now) }
{
    let n = put_answer(line, out);
    if text::same(expected(line), &out[..n]) {
        return true;
    }
    print(line);
    print(b" but here ");
    print(&out[..n]);
    print(b"\n");
    false
}

// How many lines there are, and how many of them differ.
fn compared(input: &[u8], out: &mut [u8]) -> Counts
    requires has_room { length input.now + 24 ≤ length out.old }
    requires bound { length input.now ≤ 65536 }
    ensures { (result.calls ≡ length (lines input.now)) × (result.differ ≡ differing input.now) }
{
    let mut counts = Counts {
        calls: 0,
        differ: 0,
    };
    for line in input.split_inclusive(|&byte| byte == b'\n') {
        counts = counts.with(agrees(before(line, b'\n'), out));
    }
    counts
}

fn report(counts: Counts) {
    io::print_decimal(STDOUT, counts.calls);
    print(b" vectors, ");
    io::print_decimal(STDOUT, counts.differ);
    print(b" differ\n");
}

fn main() {
    let mut input = io::large_buffer();
    let n = io::read_full(STDIN, &mut input);
    // room for the answer to any line of the input
    let mut out = [0u8; 65560];
    report(compared(&input[..n], &mut out));
}
