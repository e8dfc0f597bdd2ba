// Makes the calls of a list on one store and prints a line for each: the answer, and a sum over every byte of the store (of the output,
// where it is a restore). The list is the file `stdin`; the file `stdout` has the answers of the test oracle (tests/states).
//
// The list is frames, one after the other. A frame is three numbers of four bytes, the lowest first, then a name of 8 bytes, then bytes.
// The first number says what it is:
//
//     0 begin    the store is filled with the name's first byte; the second number says how many bytes of it are lent from now on
//     1 damage   the bytes are written into the store, at the second number
//     2 save     the bytes are the tape
//     3 restore  the second number says how many bytes the output has
//     4 delete
//
// and the third number says how many bytes there are.
#![tactic(auto)]

ghost use Rattle.std.specs.Prelude.{◌+◌, ◌≤◌, ◌<◌, length};
ghost use Rattle.std.specs.Option.{IfSome};

use answers::{Answer, Told};
use replays::{MARK, STDIN, STDOUT, size_at, sum};
use tape::little_endian::number_at;

// The longest list that is read.
const LONGEST: usize = 150000;

// The whole store, of which a part is lent.
const STORE: usize = 524352;

const OUT: usize = 65600;

// ---- printing

// Kept: here and not in crate replays, as in the other test programs: no clause can say what is printed, and every public function of
// this repository promises something.
fn print(s: &[u8]) {
    io::write_all(STDOUT, s);
}

fn print_number(n: u64) {
    print(b" ");
    io::print_decimal(STDOUT, n);
}

fn print_size(n: usize) {
    // Kept: a cast: 64 bits hold every `usize`, and `u64::try_from` is no plainer, since it asks what to do where they do not.
    print_number(n as u64);
}

fn print_answer(what: &[u8], answer: Answer, bytes: &[u8]) {
    let t = Told::from(answer);
    print(what);
    print_number(t.refusal);
    print_number(t.place);
    print_number(t.value);
    print_number(sum(bytes));
    print(b"\n");
}

// ---- a frame

// What it asks for.
#[derive(Clone, Copy, Debug, PartialEq, Eq)]
enum Kind {
    Begin,
    Damage,
    Save,
    Restore,
    Delete,
}

fn kind_of(number: u64) -> Option<Kind> {
    match number {
        0 => Some(Kind::Begin),
        1 => Some(Kind::Damage),
        2 => Some(Kind::Save),
        3 => Some(Kind::Restore),
        4 => Some(Kind::Delete),
        _ => None,
    }
}

#[derive(Clone, Copy, Debug, PartialEq, Eq)]
struct Frame<'a> {
    kind: Option<Kind>,
    size: usize, // a length or a place
    name: &'a [u8; 8],
    bytes: &'a [u8],
}

// The frame at the list's front, where there is a whole one, and what lies behind it.
fn first(list: &[u8]) -> Option<(Frame<'_>, &[u8])>
    ensures { IfSome result (λ r. length r.1.now < length list.now) }
{
    let (numbers, rest) = list.split_first_chunk::<12>()?;
    let (name, rest) = rest.split_first_chunk::<8>()?;
    let (bytes, behind) = rest.split_at_checked(size_at(numbers, 8, 4))?;
    let frame = Frame {
        kind: kind_of(number_at(numbers, 0, 4)),
        size: size_at(numbers, 4, 4),
        name,
        bytes,
    };
    Some((frame, behind))
}

// ---- what a frame asks for

// The store, and how many of its bytes a call is lent.
#[derive(Drop)]
struct Store<'a> {
    bytes: &'a mut [u8],
    lent: usize,
}

impl Store<'_> {
    fn begin(&mut self, f: Frame<'_>) {
        self.bytes.fill(f.name[0]);
        self.lent = f.size;
        print(b"begin");
        print_size(f.size);
        print(b"\n");
    }

    fn damage(&mut self, f: Frame<'_>) {
        let at = f.size;
        let Some(behind) = self.bytes.get_mut(at..) else {
            return;
        };
        let Some(part) = behind.get_mut(..f.bytes.len()) else {
            return;
        };
        part.copy_from_slice(f.bytes);
        print(b"damage");
        print_size(at);
        print(b"\n");
    }

    fn save(&mut self, f: Frame<'_>) {
        let Some(part) = self.bytes.get_mut(..self.lent) else {
            return;
        };
        let answer = states::save(part, f.name, f.bytes);
        print_answer(b"save", answer, self.bytes);
    }

    fn restore(&self, f: Frame<'_>) {
        let mut out = [MARK; OUT];
        let Some(part) = self.bytes.get(..self.lent) else {
            return;
        };
        let Some(room) = out.get_mut(..f.size) else {
            return;
        };
        let answer = states::restore(part, f.name, room);
        print_answer(b"restore", answer, &out);
    }

    fn delete(&mut self, f: Frame<'_>) {
        let Some(part) = self.bytes.get_mut(..self.lent) else {
            return;
        };
        let answer = states::delete(part, f.name);
        print_answer(b"delete", answer, self.bytes);
    }

    // Does what a frame asks for.
    fn step(&mut self, f: Frame<'_>) {
        match f.kind {
            Some(Kind::Begin) => self.begin(f),
            Some(Kind::Damage) => self.damage(f),
            Some(Kind::Save) => self.save(f),
            Some(Kind::Restore) => self.restore(f),
            Some(Kind::Delete) => self.delete(f),
            None => {}
        }
    }
}

// Kept: a loop of its own beside that of crate replays, which counts: here each frame changes the store that the next one finds.
fn run(list: &[u8], bytes: &mut [u8]) {
    let mut left = list;
    let mut store = Store { bytes, lent: 0 };
    while let Some((frame, behind)) = first(left) {
        store.step(frame);
        left = behind;
    }
}

fn main(rt: HostRuntime) {
    let mut input = [0u8; LONGEST];
    match vec![in rt.alloc(); 0u8; STORE] {
        Ok(mut store) => {
            let n = io::read_full(STDIN, &mut input);
            run(&input[..n], &mut store);
        }
        Err(_) => print(b"no memory is left\n"),
    }
}
