// Calls through a cast pointer: Keywords that begin `((void`.
ghost use Rattle.std.specs.Prelude.{◌≡◌, false, refl};
ghost use Rattle.std.proofs.Math.Option.{none};
ghost use Rattle.reference.specs.Listing.{token};
ghost use Rattle.reference.specs.Claim.{is_call_mark, calls, calls_in};
ghost use Rattle.tape.specs.Held.{held};
ghost use Rattle.tallies.specs.Counting.{casts_with, with_commands};

use crate::tally::{Tally, count};
use ground::kinds::KEYWORD;
use text::starts;

// So many so far, and whether a line has begun.
#[derive(Clone, Copy)]
struct Casts {
    count: usize,
    begun: bool,
}

fn is_cast(kind: u64, text: &[u8]) -> bool
    ensures { result ≡ is_call_mark none (token kind text.now) false }
{
    kind == KEYWORD && starts(text, b"((void")
}

impl Tally for Casts {
    type Total = usize;

    ghost total = { with_commands casts_with (calls_in none) };

    ghost spent = { λ s. s.count };

    fn line(self) -> Casts {
        Casts {
            begun: true,
            ..self
        }
    }

    fn token(self, kind: u64, text: &[u8]) -> Casts {
        let called = self.begun && is_cast(kind, text);
        Casts {
            count: self.count + usize::from(called),
            ..self
        }
    }

    fn total(self) -> usize {
        self.count
    }

    ghost skips_marks = { λ t s more. refl };
}

// How many calls through a cast pointer the listing of a tape has, as demand 3 counts them.
pub fn count_casts(tape: &[u8]) -> usize
    ensures { result ≡ calls none (held tape.now) }
{
    let start = Casts {
        count: 0,
        begun: false,
    };
    count(start, tape)
}
