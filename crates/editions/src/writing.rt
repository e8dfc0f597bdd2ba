// A tape that goes down, put into a lent slice: every command as it was, but for Numbers.
ghost use Rattle.std.specs.Prelude.{◌≡◌, false, ◌≤◌, length};
ghost use Rattle.reference.specs.Listing.{token, Listing};
ghost use Rattle.reference.specs.Tape.{new_token, write_command, write};
ghost use Rattle.reference.specs.Questions.{Passed, read, marks_in};
ghost use Rattle.text.specs.Cursor.{Fits, Puts};
ghost use Rattle.tape.specs.Bytes as Lists;
ghost use Rattle.tape.specs.Walk.{event_shown};
ghost use Rattle.editions.specs.Numbers.{down_text, has_no_older};
ghost use Rattle.editions.specs.Conversion.{down_token, change};
ghost use Rattle.editions.specs.Lowering.{down_command, Lowers, Lowerable};

use crate::texts::put_down;
use ground::kinds::NUMBER;
use tape::walk::{Commands, Event};
use tape::writing::{put_command, put_end, put_token};
use text::Cursor;

// Puts the command of a Number gone down.
fn put_number(s: &[u8], out: &mut Cursor)
    requires { (has_no_older s.now ≡ false) × (length s.now ≤ 24)
        × Fits out.old (length (write_command (new_token (token 2 (down_text s.now))))) }
    ensures { Puts out.old (write_command (new_token (token 2 (down_text s.now)))) out.new }
{
    let mut text = [0; 24];
    let mut down = Cursor::new(&mut text, 0);
    put_down(s, &mut down);
    let n = down.at;
    put_token(NUMBER, &text[..n], out);
}

// Puts a command gone down.
fn put_lowered(event: &Event<'_>, out: &mut Cursor)
    requires { Lowers (event_shown event.now) out.old }
    ensures { Puts out.old (write_command (down_command (event_shown event.now))) out.new }
{
    match *event {
        Event::Token { kind, text } if kind == NUMBER => put_number(text, out),
        _ => put_command::<false>(event, out),
    }
}

// Writes the tape gone down to the front of `out`, and says how long it is. No command of it earns 13.
pub fn lower(tape: &[u8], out: &mut [u8]) -> usize
    requires { Lowerable tape.now × (length tape.now ≤ length out.old) }
    ensures { (lines : Listing) → read tape.now ≡ Passed lines
        → Lists.Puts out.old 0 (write (change down_token lines) (marks_in tape.now)) out.new result }
{
    let mut out = Cursor::new(out, 0);
    for c in Commands::<false>::new(tape) {
        put_lowered(&c.event, &mut out);
    }
    put_end(&mut out);
    out.at
}
