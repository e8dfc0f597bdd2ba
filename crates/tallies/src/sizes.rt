// Lines, tokens and bytes of text.
ghost use Rattle.std.specs.Prelude.{◌≡◌, ◌+◌, refl};
ghost use Rattle.tape.specs.Questions.{sizes_in};
ghost use Rattle.tape.specs.Held.{held};
ghost use Rattle.tallies.specs.Counting.{sizes_of, sizes_with};

use crate::tally::{Tally, count};

#[derive(Clone, Copy, Debug, PartialEq, Eq)]
pub struct Sizes {
    pub lines: usize,
    pub tokens: usize,
    pub text: usize,
}

impl Tally for Sizes {
    type Total = Sizes;

    ghost total = { sizes_with };

    ghost spent = { λ s. s.lines + s.tokens + s.text };

    fn line(self) -> Sizes {
        Sizes {
            lines: self.lines + 1,
            ..self
        }
    }

    // A token before any line is in none.
    fn token(self, kind: u64, text: &[u8]) -> Sizes {
        if self.lines == 0 {
            return self;
        }
        Sizes {
            tokens: self.tokens + 1,
            text: self.text + text.len(),
            ..self
        }
    }

    fn total(self) -> Sizes {
        self
    }

    ghost skips_marks = { λ t s more. refl };
}

// How many lines, tokens and bytes of text a tape holds.
pub fn count_sizes(tape: &[u8]) -> Sizes
    ensures { sizes_of result ≡ sizes_in (held tape.now) }
{
    let start = Sizes {
        lines: 0,
        tokens: 0,
        text: 0,
    };
    count(start, tape)
}
