// The commands of a tape, put in the other form: the addresses of a line and of marks are moved, and every other command is put as it is.
ghost use Rattle.std.specs.Prelude.{◌≡◌, false, ◌+◌, ◌<◌, length};
ghost use Rattle.reference.specs.Lists.{any};
ghost use Rattle.text.specs.Cursor.{Fits, Puts};
ghost use Rattle.tape.specs.Walk.{event_shown, ByteFits};
ghost use Rattle.offsets.specs.Offsets.{addresses};
ghost use Rattle.offsets.specs.Calls.{bad_for, moved_by, move_command, moved_bytes, Ready, Converts};

use tape::walk::{Commands, Event};
use tape::writing::{put_command, put_end};
use text::Cursor;

// An address as the other form has it.
fn moved<const BASED: bool>(address: u64, base: u64) -> u64
    requires { bad_for BASED base address ≡ false }
    ensures { result ≡ moved_by BASED base address }
{
    if BASED {
        base + address
    } else {
        address - base
    }
}

// A command with its addresses as the other form has them.
fn moved_event<'a, const BASED: bool>(event: &Event<'a>, base: u64) -> Event<'a>
    requires { any (bad_for BASED base) (addresses (event_shown event.now)) ≡ false }
    ensures { event_shown result ≡ move_command (moved_by BASED base) (event_shown event.now) }
{
    match *event {
        Event::Line {
            address: Some(address),
            indent,
        } => Event::Line {
            address: Some(moved::<BASED>(address, base)),
            indent,
        },
        Event::Marks { low, high } => Event::Marks {
            low: moved::<BASED>(low, base),
            high: moved::<BASED>(high, base),
        },
        Event::Line {
            address: None,
            indent,
        } => Event::Line {
            address: None,
            indent,
        },
        Event::Token { kind, text } => Event::Token { kind, text },
    }
}

// Puts a command in the other form.
fn put_moved<const BASED: bool>(event: &Event<'_>, base: u64, out: &mut Cursor)
    requires { (any (bad_for BASED base) (addresses (event_shown event.now)) ≡ false)
        × ByteFits (event_shown event.now)
        × Fits out.old (length (moved_bytes BASED base (event_shown event.now))) }
    ensures { Puts out.old (moved_bytes BASED base (event_shown event.now)) out.new }
{
    let moved = moved_event::<BASED>(event, base);
    if BASED {
        put_command::<false>(&moved, out)
    } else {
        put_command::<true>(&moved, out)
    }
}

// Puts the commands of a tape that no question refuses in the other form.
pub fn put_commands<const BASED: bool>(tape: &[u8], base: u64, out: &mut Cursor)
    requires { Ready BASED base tape.now × Fits out.old 34561 }
    ensures { Converts BASED base tape.now out.old out.new }
{
    for c in Commands::<BASED>::new(tape) {
        put_moved::<BASED>(&c.event, base, out);
    }
    put_end(out);
}
