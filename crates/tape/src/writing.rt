// Commands put into a lent slice, in either form: what the crates above write of a tape goes through here. A number is put with as many
// bytes as the form gives it, its lowest ones.
ghost use Rattle.std.specs.Prelude.{◌≡◌, ◌<◌, length};
ghost use Rattle.reference.specs.Listing.{token};
ghost use Rattle.reference.specs.Options.{option_of};
ghost use Rattle.reference.specs.Tape.{new_line, marked, new_token, end, write_command, write_command_by};
ghost use Rattle.text.specs.Cursor.{Fits, Puts};
ghost use Rattle.tape.specs.Commands.{form_of};
ghost use Rattle.tape.specs.Walk.{event_shown, ByteFits};

use crate::commands::{line_byte, marks_byte, width_of};
use crate::walk::Event;
use text::Cursor;

// Puts the command of a line.
pub fn put_line<const BASED: bool>(address: Option<u64>, indent: u64, out: &mut Cursor)
    requires { (indent < 256) × Fits out.old (length (write_command_by (form_of BASED) (new_line (option_of address) indent))) }
    ensures { Puts out.old (write_command_by (form_of BASED) (new_line (option_of address) indent)) out.new }
{
    match address {
        Some(address) => {
            out.put_byte(line_byte::<BASED>());
            out.put_le(address, width_of::<BASED>());
        }
        None => out.put_byte(2),
    }
    out.put_le(indent, 1);
}

// Puts the command of marks.
pub fn put_marks<const BASED: bool>(low: u64, high: u64, out: &mut Cursor)
    requires { Fits out.old (length (write_command_by (form_of BASED) (marked (record { lowest = low; highest = high })))) }
    ensures { Puts out.old (write_command_by (form_of BASED) (marked (record { lowest = low; highest = high }))) out.new }
{
    let w = width_of::<BASED>();
    out.put_byte(marks_byte::<BASED>());
    out.put_le(low, w);
    out.put_le(high, w);
}

// Puts the command of a token, which is the same in both forms.
pub fn put_token(kind: u64, text: &[u8], out: &mut Cursor)
    requires { (kind < 8) × Fits out.old (length (write_command (new_token (token kind text.now)))) }
    ensures { Puts out.old (write_command (new_token (token kind text.now))) out.new }
{
    out.put_le(16 + kind, 1);
    out.put(&text.len().to_le_bytes()[..2]);
    out.put(text);
}

// Puts the end, which is the same in both forms.
pub fn put_end(out: &mut Cursor)
    requires { Fits out.old 1 }
    ensures { Puts out.old (write_command end) out.new }
{
    out.put_byte(255);
}

// Puts a command that is not the end.
pub fn put_command<const BASED: bool>(event: &Event<'_>, out: &mut Cursor)
    requires { ByteFits (event_shown event.now) × Fits out.old (length (write_command_by (form_of BASED) (event_shown event.now))) }
    ensures { Puts out.old (write_command_by (form_of BASED) (event_shown event.now)) out.new }
{
    match *event {
        Event::Line { address, indent } => put_line::<BASED>(address, indent, out),
        Event::Marks { low, high } => put_marks::<BASED>(low, high, out),
        Event::Token { kind, text } => put_token(kind, text, out),
    }
}
