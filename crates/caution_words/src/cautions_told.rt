// The words for a set of kinds, and the line over those of a listing.
ghost use Rattle.std.specs.Prelude.{◌≡◌, [], ◌≤◌, length, if◌then◌else◌};
ghost use Rattle.text.specs.Cursor.{Fits, Puts, Written};
ghost use Rattle.caution_words.specs.Told.{has, kind_line, kinds_told, silence, head};

use crate::each::{ALL, Caution};
use printing::put_decimal;
use text::Cursor;

// What it means that a line is not cautioned.
pub fn silence() -> &'static [u8]
    ensures { result.now ≡ silence }
{
    b"none of the known ways was found here; it is no proof that the line means the same"
}

// Puts the line of a kind.
fn put_kind(kind: Caution, out: &mut Cursor)
    requires { Fits out.old 400 }
    ensures { Puts out.old (kind_line kind) out.new }
{
    out.put(b"    ");
    out.put(kind.name());
    out.put(b": ");
    out.put(kind.sentence());
    out.put(b"\n");
}

// Puts the line of a kind that is in a set; nothing of one that is not.
fn put_if_in(set: u16, kind: Caution, out: &mut Cursor)
    requires { Fits out.old 400 }
    ensures { Puts out.old (if has set kind then kind_line kind else []) out.new }
{
    if kind.is_in(set) {
        put_kind(kind, out);
    }
}

// Puts a line for each kind of a set at the front, and says how long they are.
pub fn put_kinds(set: u16, out: &mut [u8]) -> usize
    requires { 4000 ≤ length out.old }
    ensures { Written out.old 0 (kinds_told set) out.new result }
{
    let mut lines = Cursor::new(out, 0);
    for kind in &ALL {
        put_if_in(set, *kind, &mut lines);
    }
    lines.at
}

// Puts how many of a listing's lines are cautioned, and what it means where a line is not, at the front, and says how long that is.
pub fn put_head(cautioned: u64, lines: u64, out: &mut [u8]) -> usize
    requires { 256 ≤ length out.old }
    ensures { Written out.old 0 (head cautioned lines) out.new result }
{
    let mut line = Cursor::new(out, 0);
    line.put(b"cautioned lines: ");
    put_decimal(cautioned, &mut line);
    line.put(b" of ");
    put_decimal(lines, &mut line);
    line.put(b"; of a line without one: ");
    line.put(silence());
    line.put(b"\n");
    line.at
}
