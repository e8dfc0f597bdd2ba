// What the test programs share: the frames of a list, what a call has written, a sum over bytes, and how many calls differ.
#![tactic(auto)]

ghost use Rattle.std.specs.Prelude.{◌≡◌, ◌+◌, ◌≤◌, ◌<◌, length, take, drop, true};
ghost use Rattle.std.specs.Option.{IfSome};
ghost use Rattle.reference.specs.Tape.{from_le_bytes};
ghost use Rattle.reference.specs.Control.{when◌then◌else◌};

use tape::little_endian::number_at;

// The numbers of standard input and output.
pub const STDIN: i32 = 0;

pub const STDOUT: i32 = 1;

// Every byte that is lent for an output has this value before the call.
pub const MARK: u8 = 170;

// A number of n bytes that is a length or a place.
pub fn size_at(list: &[u8], at: usize, n: usize) -> usize
    requires { (n ≤ 8) × (at + n ≤ length list.now) }
    ensures { result ≡ from_le_bytes (take n (drop at list.now)) }
{
    // Kept: a cast: a `usize` holds 64 bits wherever this is built, and `usize::try_from` is no plainer, since it asks what to do where it
    // does not.
    number_at(list, at, n) as usize
}

// The frame at the list's front, whose first number, of n bytes, is its length; and what lies behind it. None where there is no whole
// frame.
pub fn first_frame(list: &[u8], n: usize) -> Option<(&[u8], &[u8])>
    requires { (0 < n) × (n ≤ 8) }
    ensures { IfSome result (λ r. (n ≤ length r.0.now) × (length r.0.now + length r.1.now ≡ length list.now)) }
{
    let size = size_at(list.get(..n)?, 0, n);
    if size < n {
        return None;
    }
    list.split_at_checked(size)
}

// Whether the output is the new tape, and past that as before.
pub fn is_output(out: &[u8], new: &[u8]) -> bool
    ensures { result ≡ true → take (length new.now) out.now ≡ new.now }
{
    match out.strip_prefix(new) {
        Some(behind) => behind.iter().all(|&byte| byte == MARK),
        None => false,
    }
}

// One byte more in a sum, which depends on every byte and its place: modulo the largest prime below 2^32.
fn added(h: u64, byte: u8) -> u64
    requires { h < 4294967296 }
    ensures { result < 4294967296 }
{
    (h * 65599 + u64::from(byte)) % 4294967291
}

pub fn sum(bytes: &[u8]) -> u64
    ensures { result < 4294967296 }
{
    let mut h = 1;
    for &byte in bytes {
        h = added(h, byte);
    }
    h
}

// How many calls there were, and how many of them differ.
#[derive(Clone, Copy, Debug, PartialEq, Eq)]
pub struct Counts {
    pub calls: u64,
    pub differ: u64,
}

impl Counts {
    // With one call more.
    pub fn with(self, right: bool) -> Counts
        requires { (self.calls ≤ 650000) × (self.differ ≤ self.calls) }
        ensures value { result ≡ (when right then record { calls = self.calls + 1; differ = self.differ } else record
            { calls = self.calls + 1; differ = self.differ + 1 }) }
        ensures differ_le_calls { (result.calls ≡ self.calls + 1) × (result.differ ≤ result.calls) }
    {
        Counts {
            calls: self.calls + 1,
            differ: self.differ + u64::from(!right),
        }
    }
}

// Makes the calls of a list of frames, whose lengths have n bytes, and counts them. `does` says of a frame whether its call did what is
// wanted, and none where the call is not to be counted.
pub fn replayed<F: FnMut(&[u8]) -> Option<bool>>(list: &[u8], n: usize, mut does: F) -> Counts
    requires bounds { (0 < n) × (n ≤ 8) × (length list.now ≤ 150000) }
    requires callable { F.IsAlwaysCallable does }
    ensures { (result.differ ≤ result.calls) × (result.calls ≤ length list.now) }
{
    let mut left = list;
    let mut counts = Counts {
        calls: 0,
        differ: 0,
    };
    while let Some((frame, behind)) = first_frame(left, n) {
        if let Some(right) = does(frame) {
            counts = counts.with(right);
        }
        left = behind;
    }
    counts
}
