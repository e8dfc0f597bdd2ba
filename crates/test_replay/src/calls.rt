// One call, and whether it did what its frame wants: the report, and every byte that was lent.
ghost use Rattle.std.specs.Prelude.{◌≡◌, ◌≤◌, length, replicate};
ghost use Rattle.reference.specs.Text.{◌≟◌};
ghost use Rattle.ground.specs.Rules.{rules_of};
ghost use Rattle.clean.specs.Replies.{report_of};
ghost use Rattle.test_replay.specs.Answers.{is_wanted, wanted_in};
ghost use Rattle.test_replay.specs.Answers.{work_wanted, out_wanted};
ghost use Rattle.test_replay.specs.Answers.{all_right, is_right, rules_in, agrees};

use crate::frames::{
    ATTEMPTS, CUT, FIRST, Frame, LENGTH, OUT, PLACE, REFUSAL, REMOVED, ROUNDS, SECOND, SETTINGS,
    THIRD, WORK_A, WORK_B, number, output_of, size_at, tape_of,
};
use crate::print;
use answers::Refusal;
use clean::Finished;
use ground::rules::Rules;
use puchkewa::Report;
use replays::MARK;
use text::same;

// What is lent is longer than a call asks for, and every byte of it is the mark before the call.
const LONG_WORK: usize = 65600;

const LONG_OUT: usize = 59200;

// How many bytes of a work area a finished call leaves zero.
const WORK: usize = 49152;

// ---- the report

// The report that the frame wants.
fn wanted(frame: &Frame<'_>) -> Report
    ensures { result ≡ wanted_in frame.now.list.now }
{
    Report {
        refusal: number(frame.list, REFUSAL),
        place: number(frame.list, PLACE),
        length: number(frame.list, LENGTH),
        attempts_1: number(frame.list, FIRST),
        attempts_2: number(frame.list, SECOND),
        attempts_3: number(frame.list, THIRD),
        removed: number(frame.list, REMOVED),
        cut: number(frame.list, CUT),
        rounds: number(frame.list, ROUNDS),
        attempts: number(frame.list, ATTEMPTS),
    }
}

// Whether a reply is the one that the frame wants.
fn is_wanted(frame: &Frame<'_>, r: Result<Finished, Refusal>) -> bool
    ensures { result ≡ is_wanted frame.now.list.now (report_of r) }
{
    wanted(frame) == Report::from(r)
}

// ---- the lent bytes

// Puts what a work area holds afterwards in the place of what it held.
fn want_work(frame: &Frame<'_>, area: &mut [u8])
    requires { 49152 ≤ length area.old }
    ensures { area.new ≡ work_wanted frame.now.list.now area.old }
{
    if number(frame.list, REFUSAL) == 0 {
        area[..WORK].fill(0);
    }
}

// Puts what the output holds afterwards in the place of what it held.
fn want_out(frame: &Frame<'_>, out: &mut [u8])
    ensures { out.new ≡ out_wanted frame.now.list.now out.old }
{
    let wanted = output_of(frame);
    if wanted.len() <= out.len() {
        out[..wanted.len()].copy_from_slice(wanted);
    }
}

// ---- the call

// Whether the reply is right; says so where it is not.
fn reply_right(frame: &Frame<'_>, r: Result<Finished, Refusal>) -> bool
    ensures { result ≡ is_wanted frame.now.list.now (report_of r) }
{
    let right = is_wanted(frame, r);
    if !right {
        print(b"another reply\n");
    }
    right
}

// Whether a lent part is as wanted; what is not is named.
fn part_right(part: &[u8], wanted: &[u8], what: &[u8]) -> bool
    ensures { result ≡ (part.now ≟ wanted.now) }
{
    let right = same(part, wanted);
    if !right {
        print(what);
    }
    right
}

// Whether the reply is right and each part is as wanted.
// Kept: here and below the lent parts stand side by side, as in `clean`, which has the C interface's order: with a struct of them each
// contract would name the same parts as its fields, and the call would take it apart again: no plainer.
fn all_right<'a>(
    frame: &'a Frame<'a>,
    r: Result<Finished, Refusal>,
    work_a: &'a [u8],
    work_b: &'a [u8],
    out: &'a [u8],
    work: &'a [u8],
    written: &'a [u8],
) -> bool
    ensures { result ≡ all_right frame.now.list.now (report_of r) work_a.now work_b.now out.now work.now written.now }
{
    reply_right(frame, r)
        && (part_right(work_a, work, b"another first work area\n")
            && (part_right(work_b, work, b"another second work area\n")
                && part_right(out, written, b"another output\n")))
}

// Whether a reply and the lent parts are as wanted, what is wanted being made from parts that hold the mark everywhere.
fn is_right<'a>(
    frame: &'a Frame<'a>,
    r: Result<Finished, Refusal>,
    work_a: &'a [u8],
    work_b: &'a [u8],
    out: &'a [u8],
) -> bool
    ensures { result ≡ is_right frame.now.list.now (report_of r) work_a.now work_b.now out.now }
{
    let mut work = [MARK; LONG_WORK];
    let mut written = [MARK; LONG_OUT];
    want_work(frame, &mut work);
    want_out(frame, &mut written);
    all_right(frame, r, work_a, work_b, out, &work, &written)
}

// The settings of the call.
fn settings(frame: &Frame<'_>) -> Rules
    ensures { rules_of result ≡ rules_in frame.now.list.now }
{
    let n = number(frame.list, SETTINGS);
    let [convention, _, edition, ..] = n.to_le_bytes();
    Rules {
        convention,
        settle: n / 256 % 2 == 1,
        edition,
        parts: n / 512 % 2 == 1,
        profile: n / 1024 % 2 == 1,
    }
}

// Makes the call in lent bytes that all have the mark's value, and says whether all is as wanted.
fn agrees_in(frame: &Frame<'_>, work_a: &mut [u8], work_b: &mut [u8], out: &mut [u8]) -> bool
    ensures { result ≡ agrees frame.now.list.now work_a.old work_b.old out.old }
{
    let a = size_at(frame.list, WORK_A);
    let b = size_at(frame.list, WORK_B);
    let o = size_at(frame.list, OUT);
    if work_a.len() < a {
        return false;
    }
    if work_b.len() < b {
        return false;
    }
    if out.len() < o {
        return false;
    }
    let rules = settings(frame);
    let r = clean::clean(
        rules,
        tape_of(frame),
        &mut work_a[..a],
        &mut work_b[..b],
        &mut out[..o],
    );
    is_right(frame, r, work_a, work_b, out)
}

// Makes the call of the frame at the list's front.
pub fn agrees_marked(frame: &Frame<'_>) -> bool
    ensures { result ≡ agrees frame.now.list.now (replicate 65600 170) (replicate 65600 170) (replicate 59200 170) }
{
    let mut work_a = [MARK; LONG_WORK];
    let mut work_b = [MARK; LONG_WORK];
    let mut out = [MARK; LONG_OUT];
    agrees_in(frame, &mut work_a, &mut work_b, &mut out)
}
