// Where in a listing an offset of its tape is.
ghost use Rattle.std.specs.Prelude.{◌≡◌, ◌+◌, ◌<◌, ◌^◌};
ghost use Rattle.reports.specs.Places.{after, spot_of};
ghost use Rattle.tape.specs.Walk.{event_shown};

use tape::walk::{Commands, Event};

// A line and a token in it, counted from 1: line 0 before the first, token 0 at the line's own command or its marks.
#[derive(Clone, Copy, Debug, PartialEq, Eq)]
pub struct Spot {
    pub line: u64,
    pub token: u64,
}

impl Spot {
    // With one command more.
    fn after(self, event: Event) -> Spot
        requires line_fits { self.line + 1 < 2 ^ 64 }
        requires token_fits { self.token + 1 < 2 ^ 64 }
        ensures { result ≡ after self (event_shown event.entry) }
    {
        match event {
            Event::Line { .. } => Spot {
                line: self.line + 1,
                token: 0,
            },
            Event::Marks { .. } => self,
            Event::Token { .. } => Spot {
                token: self.token + 1,
                ..self
            },
        }
    }
}

// The line and the token at a place of a tape.
pub fn spot_of(tape: &[u8], place: u64) -> Spot
    ensures { result ≡ spot_of tape.now place }
{
    let mut spot = Spot { line: 0, token: 0 };
    for c in Commands::<false>::new(tape) {
        if place < c.at as u64 {
            return spot;
        }
        spot = spot.after(c.event);
    }
    spot
}
