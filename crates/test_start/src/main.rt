// Replays a list of calls of request M-107, which start value gives this output, with the oracle's answers (tests/start), from standard
// input. Prints for each sort of answer how many calls there are and how many differ. Such a call is lent nothing to write, so its answer
// is all there is to compare.
//
// The list: frames one after the other. A frame is eight numbers of eight bytes, the lowest first, then the tape of a call, the chosen name
// and the list of names with their values. The numbers: the frame's own length; the value that the formula is to return; the wanted
// refusal, place and value; and the lengths of tape, chosen name and list.
#![tactic(auto)]

ghost use Rattle.std.specs.Prelude.{◌≤◌, ◌<◌, length};
ghost use Rattle.std.specs.Option.{IfSome};

use answers::{Reason, Told};
use replays::{Counts, STDIN, STDOUT, size_at};
use start::start_value;
use tape::little_endian::number_at;

// The longest list that is read.
const LONGEST: usize = 150000;

// ---- the list

#[derive(Clone, Copy, Debug, PartialEq, Eq)]
struct Frame<'a> {
    returned: u64,
    told: Told,
    tape: &'a [u8],
    chosen: &'a [u8],
    values: &'a [u8],
}

// How many bytes the frame at the list's front has, by its first number; none where no whole one stands there.
fn size(list: &[u8]) -> Option<usize>
    ensures { IfSome result (λ n. (0 < n) × (n ≤ length list.now)) }
{
    let (numbers, _) = list.split_first_chunk::<64>()?;
    let n = size_at(numbers, 0, 8);
    (0 < n && n <= list.len()).then_some(n)
}

// What the frame at the list's front says; none where the list is shorter than its numbers and the three parts behind them.
fn read(list: &[u8]) -> Option<Frame<'_>> {
    let (numbers, rest) = list.split_first_chunk::<64>()?;
    let (tape, rest) = rest.split_at_checked(size_at(numbers, 40, 8))?;
    let (chosen, rest) = rest.split_at_checked(size_at(numbers, 48, 8))?;
    let (values, _) = rest.split_at_checked(size_at(numbers, 56, 8))?;
    Some(Frame {
        returned: number_at(numbers, 8, 8),
        told: Told {
            refusal: number_at(numbers, 16, 8),
            place: number_at(numbers, 24, 8),
            value: number_at(numbers, 32, 8),
        },
        tape,
        chosen,
        values,
    })
}

// ---- a call

// Whether the call of a frame answers what the frame wants.
fn agrees(f: Frame<'_>) -> bool {
    Told::from(start_value(f.tape, f.chosen, f.values, f.returned)) == f.told
}

// ---- all calls

// Answers by their refusal; those of the tape's questions are one sort.
#[derive(Clone, Copy, Debug, PartialEq, Eq)]
enum Sort {
    StartValue,
    NoneWorks,
    Names,
    NoStraightPiece,
    Others,
}

// The sort of the answers with a refusal of this number, 0 being none.
fn sort_of(refusal: u64) -> Sort {
    if refusal == 0 {
        return Sort::StartValue;
    }
    match Reason::try_from(refusal) {
        Ok(Reason::OutsideProfile) => Sort::NoStraightPiece,
        Ok(Reason::NoStartValue) => Sort::NoneWorks,
        Ok(Reason::NoRegister) => Sort::Names,
        _ => Sort::Others,
    }
}

// Whether the call of the frame at the list's front answers what the frame wants; none where the wanted answer is of another sort. A frame
// that cannot be read differs.
fn does_sort(list: &[u8], sort: Sort) -> Option<bool> {
    let (numbers, _) = list.split_first_chunk::<64>()?;
    if sort_of(number_at(numbers, 16, 8)) != sort {
        return None;
    }
    match read(list) {
        Some(f) => Some(agrees(f)),
        None => Some(false),
    }
}

// Replays the calls whose wanted answer is of a sort.
// Kept: a loop of its own beside that of crate replays, which hands over a frame alone: here a part of a frame may lie behind it.
fn replayed(list: &[u8], sort: Sort) -> Counts
    requires { length list.now ≤ 150000 }
{
    let mut left = list;
    let mut counts = Counts {
        calls: 0,
        differ: 0,
    };
    while let Some(n) = size(left) {
        if let Some(right) = does_sort(left, sort) {
            counts = counts.with(right);
        }
        left = &left[n..];
    }
    counts
}

// Kept: here and not in crate replays, as in the other test programs: no clause can say what is printed, and every public function of
// this repository promises something.
fn print(s: &[u8]) {
    io::write_all(STDOUT, s);
}

fn print_counts(what: &[u8], counts: Counts) {
    print(what);
    io::print_decimal(STDOUT, counts.calls);
    print(b" calls, ");
    io::print_decimal(STDOUT, counts.differ);
    print(b" differ\n");
}

fn run(list: &[u8])
    requires { length list.now ≤ 150000 }
{
    print_counts(b"a start value: ", replayed(list, Sort::StartValue));
    print_counts(b"none works, 15: ", replayed(list, Sort::NoneWorks));
    print_counts(b"names, 16: ", replayed(list, Sort::Names));
    print_counts(
        b"no straight piece, 14: ",
        replayed(list, Sort::NoStraightPiece),
    );
    print_counts(b"the tape's questions: ", replayed(list, Sort::Others));
}

fn main() {
    let mut input = [0u8; LONGEST];
    let n = io::read_full(STDIN, &mut input);
    run(&input[..n]);
}
