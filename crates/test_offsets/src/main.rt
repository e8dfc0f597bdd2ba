// Replays the oracle's answers to calls of both conversions (tests/offsets), from standard input: each reply is compared and every byte
// that was lent, and what lies past it. Prints how many calls there were each way and how many differ.
//
// The list is frames one after the other: eight numbers of eight bytes, the lowest first, then the tape of a call, then the new tape that
// is wanted. The numbers: 0 for the way there, else the way back; the base; the length of the output; the wanted refusal, place and
// value; the length of the tape; the length of the wanted tape.
#![tactic(auto)]

ghost use Rattle.std.specs.Prelude.{◌+◌, ◌≤◌, ◌<◌, length};
ghost use Rattle.std.specs.Option.{IfSome};

use answers::Told;
use replays::{Counts, MARK, STDIN, STDOUT, is_output, size_at};
use tape::little_endian::number_at;

// The longest list that is read.
const LONGEST: usize = 150000;

// What is lent is a part of this many bytes, and every byte of it is the mark before the call.
const LONG_OUT: usize = 59200;

// The calls there, and the calls back.
#[derive(Clone, Copy, Debug, PartialEq, Eq)]
struct Ways {
    there: Counts,
    back: Counts,
}

// Kept: here and not in crate replays, as in the other test programs: no clause can say what is printed, and every public function of
// this repository promises something.
fn print(s: &[u8]) {
    io::write_all(STDOUT, s);
}

fn print_number(n: u64) {
    io::print_decimal(STDOUT, n);
}

// ---- a frame

#[derive(Clone, Copy, Debug, PartialEq, Eq)]
struct Frame<'a> {
    there: bool,
    base: u64,
    output: usize,
    told: Told,
    tape: &'a [u8],
    wanted: &'a [u8],
}

// The frame at the list's front, where there is a whole one, and what lies behind it.
fn first(list: &[u8]) -> Option<(Frame<'_>, &[u8])>
    ensures { IfSome result (λ r. length r.1.now < length list.now) }
{
    let (header, rest) = list.split_first_chunk::<64>()?;
    let (tape, rest) = rest.split_at_checked(size_at(header, 48, 8))?;
    let (wanted, behind) = rest.split_at_checked(size_at(header, 56, 8))?;
    let frame = Frame {
        there: number_at(header, 0, 8) == 0,
        base: number_at(header, 8, 8),
        output: size_at(header, 16, 8),
        told: Told {
            refusal: number_at(header, 24, 8),
            place: number_at(header, 32, 8),
            value: number_at(header, 40, 8),
        },
        tape,
        wanted,
    };
    Some((frame, behind))
}

// ---- one call

fn call(f: Frame<'_>, out: &mut [u8]) -> Told {
    Told::from(if f.there {
        offsets::to_offsets(f.base, f.tape, out)
    } else {
        offsets::from_offsets(f.tape, out)
    })
}

// Whether reply and output are as wanted. A wanted tape that is longer than all that can be lent is not put: then nothing may be written.
fn is_right(f: Frame<'_>, told: Told, out: &[u8]) -> bool {
    if told != f.told {
        print(b"another reply\n");
        return false;
    }
    let wanted = if f.wanted.len() <= out.len() {
        f.wanted
    } else {
        &[]
    };
    if !is_output(out, wanted) {
        print(b"another output\n");
        return false;
    }
    true
}

// Makes a call, and says whether it did what is wanted.
fn does(f: Frame<'_>, out: &mut [u8]) -> bool {
    let n = f.output;
    if out.len() < n {
        return false;
    }
    let told = call(f, &mut out[..n]);
    is_right(f, told, out)
}

fn agrees(f: Frame<'_>) -> bool {
    does(f, &mut [MARK; LONG_OUT])
}

// ---- the list

// The counts with a frame.
fn counted(f: Frame<'_>, ways: Ways) -> Ways
    requires there { (ways.there.calls ≤ 150000) × (ways.there.differ ≤ ways.there.calls) }
    requires back { (ways.back.calls ≤ 150000) × (ways.back.differ ≤ ways.back.calls) }
    ensures there { (result.there.calls ≤ ways.there.calls + 1) × (result.there.differ ≤ result.there.calls) }
    ensures back { (result.back.calls ≤ ways.back.calls + 1) × (result.back.differ ≤ result.back.calls) }
{
    let right = agrees(f);
    if f.there {
        Ways {
            there: ways.there.with(right),
            back: ways.back,
        }
    } else {
        Ways {
            there: ways.there,
            back: ways.back.with(right),
        }
    }
}

// Kept: a loop of its own beside that of crate replays, which is for frames that begin with their length: those of this list do not.
fn replayed(list: &[u8]) -> Ways
    requires { length list.now ≤ 150000 }
    ensures there { (result.there.calls ≤ 150000) × (result.there.differ ≤ result.there.calls) }
    ensures back { (result.back.calls ≤ 150000) × (result.back.differ ≤ result.back.calls) }
{
    let none = Counts {
        calls: 0,
        differ: 0,
    };
    let mut left = list;
    let mut ways = Ways {
        there: none,
        back: none,
    };
    while let Some((frame, behind)) = first(left) {
        ways = counted(frame, ways);
        left = behind;
    }
    ways
}

fn run(list: &[u8])
    requires { length list.now ≤ 150000 }
{
    let Ways { there, back } = replayed(list);
    print(b"to offsets: ");
    print_number(there.calls);
    print(b" calls\nfrom offsets: ");
    print_number(back.calls);
    print(b" calls\n");
    print_number(there.differ + back.differ);
    print(b" differ\n");
}

fn main() {
    let mut input = [0u8; LONGEST];
    let n = io::read_full(STDIN, &mut input);
    run(&input[..n]);
}
