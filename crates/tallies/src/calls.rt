// Calls of a name: Symbols before a Punct that begins `(`.
ghost use Rattle.std.specs.Prelude.{◌≡◌, [], ◌∷◌, refl};
ghost use Rattle.std.proofs.Math.Option.{some};
ghost use Rattle.reference.specs.Listing.{token};
ghost use Rattle.reference.specs.Claim.{opens, calls, calls_in};
ghost use Rattle.tape.specs.Held.{held};
ghost use Rattle.tallies.specs.Counting.{is_name, calls_with, with_commands};

use crate::tally::{Tally, count};
use ground::kinds::{PUNCT, SYMBOL};
use text::starts;

// So many so far, whether a line has begun, and whether its last token is the name.
#[derive(Clone, Copy)]
struct Calls<'a> {
    name: &'a [u8],
    count: usize,
    begun: bool,
    named: bool,
}

fn is_name(kind: u64, text: &[u8], name: &[u8]) -> bool
    ensures { result ≡ is_name name.now (token kind text.now) }
{
    kind == SYMBOL && text == name
}

// Whether a token is a bracket that opens: behind a name it calls it.
pub fn opens(kind: u64, text: &[u8]) -> bool
    ensures { result ≡ opens (token kind text.now ∷ []) }
{
    kind == PUNCT && starts(text, b"(")
}

impl<'a> Tally for Calls<'a> {
    type Total = usize;

    ghost total = { λ s. with_commands (calls_with s.name.now) (calls_in (some s.name.now)) s };

    ghost spent = { λ s. s.count };

    fn line(self) -> Calls<'a> {
        Calls {
            begun: true,
            named: false,
            ..self
        }
    }

    fn token(self, kind: u64, text: &[u8]) -> Calls<'a> {
        if !self.begun {
            return self;
        }
        let called = self.named && opens(kind, text);
        Calls {
            count: self.count + usize::from(called),
            named: is_name(kind, text, self.name),
            ..self
        }
    }

    fn total(self) -> usize {
        self.count
    }

    ghost skips_marks = { λ t s more. refl };
}

// How many calls of a name the listing of a tape has, as demand 3 counts them.
pub fn count_calls(tape: &[u8], name: &[u8]) -> usize
    ensures { result ≡ calls (some name.now) (held tape.now) }
{
    let start = Calls {
        name,
        count: 0,
        begun: false,
        named: false,
    };
    count(start, tape)
}
