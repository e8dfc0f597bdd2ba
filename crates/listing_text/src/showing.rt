// A whole tape as text.
ghost use Rattle.std.specs.Prelude.{◌≡◌, not};
ghost use Rattle.tape.specs.Questions.{totals_of};
ghost use Rattle.listing_text.specs.Showing.{begun, shown, Shows};

use crate::forms::{put_command, put_line_end};
use crate::room::Clipped;
use answers::{Reason, Refusal};
use tape::questions::{NONE, Totals, step};

// How much of the text stands in the slice, whether it is all, and the refusal that ended it.
// Kept: a length beside a flag: the length is how much stands in the slice also where that is not all, as the clause says, and a refusal
// may end either; an `Option` of the length would tell less.
#[derive(Clone, Copy, Debug, PartialEq, Eq)]
pub struct Shown {
    pub length: usize,
    pub whole: bool,
    pub refusal: Option<Refusal>,
}

fn told(page: &Clipped, refusal: Option<Refusal>) -> Shown
    ensures { result ≡ record { length = page.now.at; whole = not page.now.cut; refusal = refusal } }
{
    Shown {
        length: page.at,
        whole: !page.cut,
        refusal,
    }
}

// The totals that the questions are asked with at an offset: one line where one has begun, none at the front, and whether the line's
// command stands just before. The totals of a listing are not asked: cleaning may lengthen a text.
fn begun(at: usize, fresh: bool) -> Totals
    ensures { totals_of result ≡ begun at fresh }
{
    let lines = usize::from(at != 0);
    Totals {
        lines,
        fresh,
        ..NONE
    }
}

// Puts the commands of a tape up to the end, or to the first that a question refuses: in the exact form, or to read. Each turn takes a byte
// of the tape at least.
// Kept: a flag that each turn asks: which form it is comes with the words of the command, so that with a const parameter the command would
// choose between two calls instead.
pub fn put_listing(tape: &[u8], exact: bool, out: &mut [u8]) -> Shown
    ensures { Shows (shown exact tape.now) out.old out.new result }
{
    let mut page = Clipped::new(out);
    let mut at = 0;
    let mut fresh = false;
    // Kept: by `step`: an iterator would hold the same `at` and `fresh`, and hand out a refusal too: no plainer for one loop.
    for _ in 0..tape.len() {
        match step::<false>(tape, at, begun(at, fresh)) {
            Ok(advance) => {
                put_command(tape, at, advance, exact, &mut page);
                if advance.command.is_end() {
                    return told(&page, None);
                }
                at = advance.next;
                fresh = advance.totals.fresh;
            }
            Err(refusal) => {
                put_line_end(at, &mut page);
                return told(&page, Some(refusal));
            }
        }
    }
    told(&page, Some(Reason::NoCommand.at(at)))
}
