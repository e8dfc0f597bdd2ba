// The cells of a line, side by side: what is put for its tokens is theirs, and nothing else.
ghost use Rattle.std.specs.Prelude.{◌+◌, ◌*◌, ◌≤◌, length};
ghost use Rattle.text.specs.Cursor.{Fits, Puts, Written};
ghost use Rattle.tape.specs.Held.{commands, tokens_of};
ghost use Rattle.page.specs.Cells.{cells, line_cells};

use crate::put_cell;
use tape::walk::{Commands, Event};
use text::Cursor;

// Puts a text in its cell; a longer one than 512 bytes in several.
pub fn put_cells(kind: u64, text: &[u8], out: &mut Cursor)
    requires { Fits out.old (7 * length text.now + 35) }
    ensures { Puts out.old (cells kind text.now) out.new }
{
    for piece in text.chunks(512) {
        put_cell(kind, piece, out);
    }
}

// Puts the cells of the tokens that a tape begins with, up to the next line, at the front, and says where they end.
// Kept: it answers a length: it promises every byte of the lent buffer, those behind the cells too (`Written`), of which a slice of the
// buffer as the answer would say nothing.
pub fn put_line(tape: &[u8], out: &mut [u8]) -> usize
    requires { 12 * length tape.now ≤ length out.old }
    ensures { Written out.old 0 (line_cells (tokens_of (commands tape.now))) out.new result }
{
    let mut line = Cursor::new(out, 0);
    for c in Commands::<false>::new(tape) {
        match c.event {
            Event::Line { .. } => break,
            Event::Marks { .. } => {}
            Event::Token { kind, text } => put_cells(kind, text, &mut line),
        }
    }
    line.at
}
