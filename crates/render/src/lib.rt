// The page of a cleaning, before and after side by side, written piece by piece. What stands in its cells is crate page's, the numbers on
// its sheet are crate tallies'.
#![tactic(auto)]

mod frame; // its constant parts
mod rows; // the two listings
mod sheet; // the field engineer's sheet
mod sink; // where it goes

ghost use Rattle.render.specs.Sinks.{Later};

use clean::Finished;
use ground::rules::Rules;
pub use sink::{Sink, count_of};
use sink::{Output, Unwritten};

// A cleaning: its settings, the name of the tape's file, the tape before and after, the set of cautions of each cleaned line (two bytes, as
// the library's call writes them), and what is told of the run.
#[derive(Clone, Copy)]
pub struct Cleaning<'a> {
    pub rules: Rules,
    pub name: &'a [u8],
    pub raw: &'a [u8],
    pub cleaned: &'a [u8],
    pub cautions: &'a [u8],
    pub told: Finished,
}

// Puts the page of a cleaning, up to the first piece that the system does not take: nothing more is put after it, so that the system's
// reason stays.
fn put_all(out: Output, cleaning: &Cleaning) -> Result<(), Unwritten> {
    let mut places = [None; 256];
    frame::put_head(out, cleaning)?;
    rows::put_rows(out, cleaning, &mut places)?;
    frame::put_middle(out)?;
    sheet::put_sheet(out, cleaning, &places)?;
    frame::put_foot(out)
}

// Puts the page of a cleaning, where all so far was written, and notes whether all of it was. (What a system call wrote no contract can
// say.)
pub fn put_page(sink: &mut Sink, cleaning: &Cleaning)
    ensures { Later sink.old sink.new }
{
    if sink.sound {
        let out = Output { fd: sink.fd };
        sink.sound = put_all(out, cleaning).is_ok();
    }
}
