// The commands of any bytes, one after the other, each with the place where it stands: from behind what the form begins with, up to the end
// or to the first place where none stands whole. No question of document 01 is asked but 3 and 4. What the crates above ask, count or put
// of a tape is of the commands that this iterator comes to, in either form.
ghost use Rattle.std.specs.Prelude.{◌≡◌, true, false, ◌+◌, ◌≤◌, length, drop, MatchOption};
ghost use Rattle.std.specs.Iterator.{YieldsFirstBy, item_count};
ghost use Rattle.tape.specs.Commands.{form_of, command_in, looked_at, ends};
ghost use Rattle.tape.specs.Held.{places_by};
ghost use Rattle.tape.specs.Walk.{event_shown, shown, left};

use crate::commands::{Command, header_of, size_of};
use crate::reader::{command_at, token_text};

// A command that is not the end: a line, with an address or without; the marks of the line begun just before; a token of a kind. In a tape
// by offset an address is an offset.
#[derive(Clone, Copy, Debug)]
pub enum Event<'a> {
    Line { address: Option<u64>, indent: u64 },
    Marks { low: u64, high: u64 },
    Token { kind: u64, text: &'a [u8] },
}

impl<'a> Event<'a> {
    // The command that was found at an offset of a tape; none of the end.
    fn of(command: Command, tape: &'a [u8], at: usize) -> Option<Event<'a>>
        requires { at + looked_at command ≤ length tape.now }
        ensures { MatchOption result (ends command ≡ true)
            (λ e. (ends command ≡ false) × (event_shown e ≡ command_in tape.entry.now at command)) }
    {
        match command {
            Command::Addressed { address, indent } => Some(Event::Line {
                address: Some(address),
                indent,
            }),
            Command::Plain { indent } => Some(Event::Line {
                address: None,
                indent,
            }),
            Command::Marked { low, high } => Some(Event::Marks { low, high }),
            Command::Token { kind, count } => Some(Event::Token {
                kind,
                text: token_text(tape, at, count),
            }),
            Command::End => None,
        }
    }
}

// A command and the place where it stands, counted from the tape's first byte.
#[derive(Clone, Copy, Debug)]
pub struct Standing<'a> {
    pub at: usize,
    pub event: Event<'a>,
}

// An iterator over the commands of a tape of either form.
#[derive(Clone, Copy, Debug)]
pub struct Commands<'a, const BASED: bool> {
    tape: &'a [u8],
    at: usize,
}

impl<'a, const BASED: bool> Commands<'a, BASED> {
    pub fn new(tape: &'a [u8]) -> Commands<'a, BASED>
        ensures { left (form_of BASED) result ≡ places_by (form_of BASED) tape.entry.now }
    {
        Commands {
            tape,
            at: header_of::<BASED>(),
        }
    }

    // The place of the next command. With none left, a place where none stands whole but the end; which such place is not promised.
    pub fn at(&self) -> usize
        ensures { result ≡ self.now.at }
    {
        self.at
    }

    // The bytes from that place on.
    pub fn as_bytes(&self) -> &'a [u8]
        ensures { result.now ≡ drop self.now.at self.now.tape.now }
    {
        &self.tape[self.at.min(self.tape.len())..]
    }
}

impl<'a, const BASED: bool> Iterator for Commands<'a, BASED> {
    type Item = Standing<'a>;

    ghost next_gives = { YieldsFirstBy shown (left (form_of BASED)) };

    ghost remaining = { item_count (left (form_of BASED)) };

    fn next(&mut self) -> Option<Standing<'a>> {
        let at = self.at;
        let command = command_at::<BASED>(self.tape, at).ok()?;
        let event = Event::of(command, self.tape, at)?;
        self.at = at + size_of::<BASED>(command);
        Some(Standing { at, event })
    }
}
