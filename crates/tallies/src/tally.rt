// A pass over the commands of a tape that counts something.
ghost use Rattle.std.specs.Prelude.{◌≡◌, ℕ, List, [], ◌∷◌, ◌+◌, ◌^◌, ◌<◌, ◌≤◌, length};
ghost use Rattle.reference.specs.Listing.{token};
ghost use Rattle.reference.specs.Spans.{Span};
ghost use Rattle.reference.specs.Tape.{Command, new_token, marked};
ghost use Rattle.tape.specs.Held.{commands};
ghost use Rattle.tallies.specs.Counting.{Counts, CountsLine};

use tape::walk::{Commands, Event};

// What is counted so far.
pub(crate) trait Tally: Copy {
    type Total;

    // the total, with the commands that are still to come
    ghost total: { Self → List Command → Self.Total };

    // how many bytes of the tape it speaks of, or fewer
    ghost spent: { Self → ℕ };

    // With a line more.
    fn line(self) -> Self
        requires { spent self + 2 < 2 ^ 64 }
        ensures counts { CountsLine total self result }
        ensures spends { spent result ≤ spent self + 2 };

    // With a token more.
    fn token(self, kind: u64, text: &[u8]) -> Self
        requires { spent self + 3 + length text.now < 2 ^ 64 }
        ensures counts { Counts total (new_token (token kind text.now)) self result }
        ensures spends { spent result ≤ spent self + 3 + length text.now };

    // The total where no command follows.
    fn total(self) -> Self::Total
        requires { spent self < 2 ^ 64 }
        ensures { result ≡ total self [] };

    // marks do not count
    ghost skips_marks: { (t : Self) (s : Span) (more : List Command) → total t (marked s ∷ more) ≡ total t more };
}

// What a tally that has counted nothing comes to over a tape.
pub(crate) fn count<T: Tally>(start: T, tape: &[u8]) -> T::Total
    requires { T.spent start ≡ 0 }
    ensures { result ≡ T.total start (commands tape.now) }
{
    let mut so_far = start;
    for c in Commands::<false>::new(tape) {
        so_far = match c.event {
            Event::Line { .. } => so_far.line(),
            Event::Marks { .. } => so_far,
            Event::Token { kind, text } => so_far.token(kind, text),
        };
    }
    so_far.total()
}
