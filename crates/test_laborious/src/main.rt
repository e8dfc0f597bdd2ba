// The most laborious listing of every number of lines, and what its first round takes: a line for each call of `laborious`, with the
// answer, a sum over every byte of the output, and the attempts of the first round of its cleaning under each convention. The file
// `stdout` has the test oracle's tapes and the attempts that the real Rust makes on them (tests/laborious).
#![tactic(auto)]

ghost use Rattle.std.specs.Prelude.{◌≤◌, ◌<◌, length};

use answers::{Answer, Refusal};
use clean::Told;
use ground::rules::Rules;
use laborious::laborious;
use replays::{MARK, STDOUT, sum};

const OUT: usize = 59200;

// Kept: here and not in crate replays, as in the other test programs: no clause can say what is printed, and every public function of
// this repository promises something.
fn print(s: &[u8]) {
    io::write_all(STDOUT, s);
}

fn print_number(n: u64) {
    print(b" ");
    io::print_decimal(STDOUT, n);
}

// ---- the first round

fn print_refusal(refusal: Refusal) {
    print(b"refused");
    print_number(refusal.reason.number());
    print_number(refusal.place);
}

fn print_attempts(convention: u8, tape: &[u8]) {
    let mut work_a = [0u8; 49152];
    let mut work_b = [0u8; 49152];
    let mut out = [0u8; 59137];
    let rules = Rules {
        convention,
        settle: false,
        edition: 0,
        parts: false,
        profile: false,
    };
    match clean::clean(rules, tape, &mut work_a, &mut work_b, &mut out) {
        Err(refusal) => {
            print(b" ");
            print_refusal(refusal);
        }
        Ok(f) => print_number(Told::from(f.tally).first),
    }
}

fn print_rounds(tape: &[u8]) {
    print(b", attempts");
    for convention in 0..3 {
        print_attempts(convention, tape);
    }
}

// ---- the call

// The tape of a call that was not refused.
fn written(answer: Answer, out: &[u8]) -> Option<&[u8]> {
    out.get(..usize::try_from(answer.ok()?).ok()?)
}

fn print_answer(answer: Answer, out: &[u8]) {
    match answer {
        Err(refusal) => print_refusal(refusal),
        Ok(n) => {
            print(b"length");
            print_number(n);
        }
    }
    print(b", bytes");
    print_number(sum(out));
    if let Some(tape) = written(answer, out) {
        print_rounds(tape);
    }
}

// Calls with the first k bytes of the output.
fn call(n: u64, out: &mut [u8], k: usize)
    requires { k ≤ length out.old }
{
    io::print_decimal(STDOUT, n);
    print(b": ");
    let answer = laborious(n, &mut out[..k]);
    print_answer(answer, out);
    print(b"\n");
}

fn print_listing(n: u64, k: usize)
    requires { k ≤ 59200 }
{
    let mut out = [MARK; OUT];
    call(n, &mut out, k);
}

fn print_listings() {
    for n in 0..300 {
        print_listing(n, 59137);
    }
}

fn main() {
    print_listings();
    print_listing(512, 59137);
    print_listing(65536, 59137);
    print_listing(4294967295, 59137);
    print_listing(4294967296, 59137);
    print_listing(4294967552, 59137);
    print_listing(18446744073709551615, 59137);
    print_listing(0, 59136);
    print_listing(0, 0);
    print_listing(1, 1);
    print_listing(256, 59136);
    print_listing(257, 59136);
    print_listing(257, 0);
    print_listing(0, 59200);
    print_listing(256, 59200);
}
