// The words of a cautioned line: what is put for a set of kinds are their names and sentences, escaped, and nothing else.
ghost use Rattle.std.specs.Prelude.{[], ◌≤◌, length, if◌then◌else◌};
ghost use Rattle.text.specs.Cursor.{Fits, Puts, Written};
ghost use Rattle.caution_words.specs.Told.{has};
ghost use Rattle.page.specs.Signs.{kind_cell, set_cells};

use crate::put_escaped;
use caution_words::{ALL, Caution};
use text::Cursor;

// Puts the words of a kind.
fn put_kind(kind: Caution, out: &mut Cursor)
    requires { Fits out.old 1500 }
    ensures { Puts out.old (kind_cell kind) out.new }
{
    out.put(b"<p><b>");
    out.put(kind.name());
    out.put(b":</b> ");
    put_escaped(kind.sentence(), out);
    out.put(b"</p>");
}

// Puts the words of a kind that is in a set; nothing of one that is not.
fn put_if_in(set: u16, kind: Caution, out: &mut Cursor)
    requires { Fits out.old 1500 }
    ensures { Puts out.old (if has set kind then kind_cell kind else []) out.new }
{
    if kind.is_in(set) {
        put_kind(kind, out);
    }
}

// Puts the words of each kind of a set at the front, and says where they end.
// Kept: it answers a length: it promises every byte of the lent buffer, as `put_line` does.
pub fn put_cautions(set: u16, out: &mut [u8]) -> usize
    requires { 15000 ≤ length out.old }
    ensures { Written out.old 0 (set_cells set) out.new result }
{
    let mut words = Cursor::new(out, 0);
    for kind in &ALL {
        put_if_in(set, *kind, &mut words);
    }
    words.at
}
