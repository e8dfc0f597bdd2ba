// The marks of lines, in a table by the number of the input line.
ghost use Rattle.std.specs.Prelude.{◌≡◌, min, max, leb};

// The lowest and the highest address of a line and of all that was joined into it; where there is none, a lowest above the highest.
// Kept: so marks join by minimum and maximum (`joined`), with no case for none, which an `Option` would need at each join.
#[derive(Clone, Copy, Debug, PartialEq, Eq)]
pub struct Marks {
    pub low: u64,
    pub high: u64,
}

impl Marks {
    // The marks of a line that both lines were joined into.
    pub fn joined(self, other: Marks) -> Marks
        ensures { result ≡ record { low = min self.low other.low; high = max self.high other.high } }
    {
        Marks {
            low: self.low.min(other.low),
            high: self.high.max(other.high),
        }
    }

    // Whether there is an address among them.
    pub fn is_some(self) -> bool
        ensures { result ≡ leb self.low self.high }
    {
        self.low <= self.high
    }
}
