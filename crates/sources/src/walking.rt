// The walk over a cleaned tape: which of its lines have marks. A cleaned tape may be longer than an accepted one, so no question is asked
// of it: the walk goes by the commands that stand there.
ghost use Rattle.std.specs.Prelude.{◌≡◌, map, ◌≤◌, length};
ghost use Rattle.tape.specs.Bytes.{Puts};
ghost use Rattle.tape.specs.Held.{commands, held, marks_of};
ghost use Rattle.tape.specs.Walk.{event_shown};
ghost use Rattle.sources.specs.Calls.{flag_of, marked_last, FlagFits, Flags};

use tape::walk::{Commands, Event};

// Sets the flag of the last of n lines.
fn mark_last(flags: &mut [u8], n: usize)
    requires { n ≤ length flags.old }
    ensures { flags.new ≡ marked_last n flags.old }
{
    if 0 < n {
        flags[n - 1] = 1;
    }
}

// The flags with one command more, n lines having begun before it.
fn flag(event: &Event<'_>, flags: &mut [u8], n: usize) -> usize
    requires { FlagFits (event_shown event.now) n flags.old }
    ensures { Flags (event_shown event.now) n flags.old flags.new result }
{
    match event {
        Event::Line { .. } => {
            flags[n] = 0;
            n + 1
        }
        Event::Marks { .. } => {
            mark_last(flags, n);
            n
        }
        Event::Token { .. } => n,
    }
}

// Writes a flag for each line that the tape holds to the front of `flags`, 1 where it has marks, else 0, and says how many lines there are.
pub fn walk(tape: &[u8], flags: &mut [u8]) -> usize
    requires { length (held tape.now) ≤ length flags.old }
    ensures { Puts flags.old 0 (map flag_of (marks_of (commands tape.now))) flags.new result }
{
    let mut n = 0;
    // Kept: lines are counted by hand: `enumerate` would count commands, and only some begin a line.
    for c in Commands::<false>::new(tape) {
        n = flag(&c.event, flags, n);
    }
    n
}
