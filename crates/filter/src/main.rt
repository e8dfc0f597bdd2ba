// The filter program of document 01: a convention byte and a tape in; the new tape, or the refusal, out. `respond` cuts a longer tape. What
// stands behind 65,537 bytes of input cannot change the answer (`unread`, proofs/Cut.antt), so no more is read.
#![tactic(auto)]

mod response; // what is answered to an input

use response::respond;

// The numbers of standard input and output.
// Kept: in crates command, filter and replays (for the test programs): crate io takes a stream's number and has no names for them.
const STDIN: i32 = 0;

const STDOUT: i32 = 1;

fn main() {
    let mut input = [0u8; 65537];
    let n = io::read_full(STDIN, &mut input);
    let mut out = [0u8; 59137];
    let m = respond(&input[..n], &mut out);
    io::write_all(STDOUT, &out[..m]);
}
