// The page that puts a listing before and after its cleaning side by side: what stands there of a listing's bytes. All else
// stays as it was. (The page's constant parts stand in crate render.)
#![tactic(auto)]

mod cells; // the cells of a line, side by side
mod signs; // the words of a cautioned line

ghost use Rattle.std.specs.Prelude.{◌+◌, ◌*◌, length};
ghost use Rattle.text.specs.Cursor.{Fits, Puts};
ghost use Rattle.page.specs.Escaping.{entity, escaped};
ghost use Rattle.page.specs.Cells.{cell};

pub use cells::{put_cells, put_line};
use printing::put_decimal;
pub use signs::put_cautions;
use text::Cursor;

// Puts a byte, or its entity.
fn put_byte(b: u8, out: &mut Cursor)
    requires { Fits out.old 6 }
    ensures { Puts out.old (entity b) out.new }
{
    match b {
        b'&' => out.put(b"&amp;"),
        b'<' => out.put(b"&lt;"),
        b'>' => out.put(b"&gt;"),
        b'"' => out.put(b"&quot;"),
        b'\'' => out.put(b"&#39;"),
        _ => out.put_byte(b),
    }
}

// Puts a text escaped.
pub fn put_escaped(text: &[u8], out: &mut Cursor)
    requires { Fits out.old (6 * length text.now) }
    ensures { Puts out.old (escaped text.now) out.new }
{
    for b in text {
        put_byte(*b, out);
    }
}

// Puts a text of a kind in its cell.
pub fn put_cell(kind: u64, text: &[u8], out: &mut Cursor)
    requires { Fits out.old (6 * length text.now + 35) }
    ensures { Puts out.old (cell kind text.now) out.new }
{
    out.put(b"<i class=k");
    put_decimal(kind, out);
    out.put(b">");
    put_escaped(text, out);
    out.put(b"</i>");
}
