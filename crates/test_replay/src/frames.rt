// The list that is replayed: frames one after the other. A frame is sixteen numbers of four bytes, the lowest first, then the tape of a
// call, then the output that is wanted. The numbers: the class; the settings; the lengths of both work areas, of the output and of the
// tape; and the ten numbers of the wanted report, of which the third is the length of the wanted output. Of the settings the lowest byte
// is the convention, the three lowest bits of the next say whether to settle, whether parts are told apart and whether the profile is asked
// for, and the third byte is the number edition.
ghost use Rattle.std.specs.Prelude.{◌≡◌, ◌+◌, ◌*◌, ◌≤◌, length};
ghost use Rattle.test_replay.specs.Frames.{number_in, Whole, Sized, tape_in, output_in};

use tape::commands::text_of;
use tape::little_endian::number_at;

pub const CLASS: usize = 0;

pub const SETTINGS: usize = 1;

pub const WORK_A: usize = 2;

pub const WORK_B: usize = 3;

pub const OUT: usize = 4;

const TAPE: usize = 5;

pub const REFUSAL: usize = 6;

pub const PLACE: usize = 7;

pub const LENGTH: usize = 8;

pub const FIRST: usize = 9;

pub const SECOND: usize = 10;

pub const THIRD: usize = 11;

pub const REMOVED: usize = 12;

pub const CUT: usize = 13;

pub const ROUNDS: usize = 14;

pub const ATTEMPTS: usize = 15;

const HEADER: usize = 64;

// A list whose frame at the front is whole.
#[derive(Clone, Copy)]
pub struct Frame<'a> {
    pub list: &'a [u8],
    pub ghost whole: { Whole list.now },
}

// A number of the frame at the list's front.
pub fn number(list: &[u8], k: usize) -> u64
    requires { 4 * k + 4 ≤ length list.now }
    ensures { result ≡ number_in list.now k }
{
    number_at(list, 4 * k, 4)
}

// A number of the frame that is a length.
pub fn size_at(list: &[u8], k: usize) -> usize
    requires { 4 * k + 4 ≤ length list.now }
    ensures { result ≡ number_in list.now k }
{
    replays::size_at(list, 4 * k, 4)
}

// How many bytes the frame at the list's front has, where there is a whole one.
pub fn size(list: &[u8]) -> Option<usize>
    ensures { Sized list.now result }
{
    if list.len() < HEADER {
        return None;
    }
    let left = list.len() - HEADER;
    let tape = size_at(list, TAPE);
    if left < tape {
        return None;
    }
    let out = size_at(list, LENGTH);
    if left - tape < out {
        return None;
    }
    Some(HEADER + tape + out)
}

// The frame's tape.
pub fn tape_of<'a>(frame: &Frame<'a>) -> &'a [u8]
    ensures { result.now ≡ tape_in frame.now.list.now }
{
    text_of(frame.list, HEADER, size_at(frame.list, TAPE))
}

// The output that it wants.
pub fn output_of<'a>(frame: &Frame<'a>) -> &'a [u8]
    ensures { result.now ≡ output_in frame.now.list.now }
{
    let tape = size_at(frame.list, TAPE);
    text_of(frame.list, HEADER + tape, size_at(frame.list, LENGTH))
}
