// Label lines: a Symbol and a `:`, and no more.
ghost use Rattle.std.specs.Prelude.{◌≡◌, ◌+◌, length, refl};
ghost use Rattle.reference.specs.Listing.{token};
ghost use Rattle.reference.specs.Claim.{label_lines};
ghost use Rattle.tape.specs.Held.{held};
ghost use Rattle.tallies.specs.Counting.{Shaped, label_in, labels_with, with_commands};

use crate::tally::{Tally, count};
use ground::kinds::SYMBOL;
use text::same;

// What the last line is so far: nothing, a Symbol, a label, or what no label begins with (so too where no line has begun).
#[derive(Clone, Copy)]
enum Shape {
    Empty,
    Name,
    Label,
    Other,
}

// So many before the last line, and what that is so far.
#[derive(Clone, Copy)]
struct Labels {
    count: usize,
    shape: Shape,
}

impl Shape {
    // With a token more.
    fn with(self, kind: u64, text: &[u8]) -> Shape
        ensures { Shaped self (token kind text.now) result }
    {
        match self {
            Shape::Empty if kind == SYMBOL => Shape::Name,
            Shape::Name if same(text, b":") => Shape::Label,
            _ => Shape::Other,
        }
    }
}

impl Tally for Labels {
    type Total = usize;

    ghost total = { with_commands labels_with label_in };

    ghost spent = { λ s. s.count + s.count };

    fn line(self) -> Labels {
        Labels {
            count: self.total(),
            shape: Shape::Empty,
        }
    }

    fn token(self, kind: u64, text: &[u8]) -> Labels {
        Labels {
            shape: self.shape.with(kind, text),
            ..self
        }
    }

    // The last line may be a label too.
    fn total(self) -> usize {
        self.count + usize::from(matches!(self.shape, Shape::Label))
    }

    ghost skips_marks = { λ t s more. refl };
}

// How many label lines the listing of a tape has.
pub fn count_labels(tape: &[u8]) -> usize
    ensures { result ≡ length (label_lines (held tape.now)) }
{
    let start = Labels {
        count: 0,
        shape: Shape::Other,
    };
    count(start, tape)
}
