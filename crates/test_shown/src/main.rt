// A listing as the command's `show` prints it: `stdin` has the tape of a press's cycle, `stdout` the listing to read. (The command's own
// run in the gate is of `counts`, over many files.)
#![tactic(auto)]

use listing_text::put_listing;
use replays::{STDIN, STDOUT};

fn main() {
    let mut tape = [0u8; 65537];
    let n = io::read_full(STDIN, &mut tape);
    let mut out = [0u8; 262144];
    let shown = put_listing(&tape[..n], false, &mut out);
    if shown.whole {
        io::write_all(STDOUT, out.get(..shown.length).unwrap_or_default());
    }
}
