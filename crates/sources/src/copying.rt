// The commands of the copy: a line without its address, or line k with the address 0; no marks; every other command as it stands.
ghost use Rattle.std.specs.Prelude.{◌≡◌, ◌≤◌, eqb, length};
ghost use Rattle.text.specs.Cursor.{Fits, Puts};
ghost use Rattle.tape.specs.Questions.{AcceptedTape};
ghost use Rattle.tape.specs.Walk.{event_shown, ByteFits};
ghost use Rattle.sources.specs.Calls.{lines_after, copied, CopyOf};

use tape::walk::{Commands, Event};
use tape::writing::{put_end, put_line, put_token};
use text::Cursor;

// Puts a command as the copy has it, n lines having begun before it, and says how many have with it: line k has the address 0, every other
// line has none.
fn put_copied(event: &Event<'_>, n: usize, k: usize, out: &mut Cursor) -> usize
    requires { ByteFits (event_shown event.now)
        × Fits out.old (length (copied (eqb n k) (event_shown event.now)))
        × (lines_after (event_shown event.now) n ≤ 256) }
    ensures { Puts out.old (copied (eqb n k) (event_shown event.now)) out.new × (result ≡ lines_after (event_shown event.now) n) }
{
    match *event {
        Event::Line { indent, .. } => {
            put_line::<false>((n == k).then_some(0), indent, out);
            n + 1
        }
        Event::Marks { .. } => n,
        Event::Token { kind, text } => {
            put_token(kind, text, out);
            n
        }
    }
}

// Writes the copy of an accepted tape to the front of `out`, and says where it ends.
pub fn put_commands(tape: &[u8], k: usize, out: &mut [u8]) -> usize
    requires { AcceptedTape tape.now × (34561 ≤ length out.old) }
    ensures { CopyOf k tape.now out.old out.new result }
{
    let mut n = 0;
    let mut out = Cursor::new(out, 0);
    // Kept: lines are counted by hand: `enumerate` would count commands, and only some begin a line.
    for c in Commands::<false>::new(tape) {
        n = put_copied(&c.event, n, k, &mut out);
    }
    put_end(&mut out);
    out.at
}
