// Addresses: the first line that has one, and how many of a raw tape's are held by the marks of a cleaned one's lines.
ghost use Rattle.std.specs.Prelude.{◌≡◌, leb, ◌+◌, ◌<◌, ◌^◌, length};
ghost use Rattle.reference.specs.Control.{◌and◌};
ghost use Rattle.reference.specs.Lists.{position, is_some, count};
ghost use Rattle.reference.specs.Options.{option_of};
ghost use Rattle.reference.specs.Claim.{one_if};
ghost use Rattle.tape.specs.Held.{commands, held};
ghost use Rattle.tallies.specs.Counting.{is_held, spans_in};

use tape::walk::{Commands, Event};

// The number of the first line that has an address.
pub fn first_addressed(tape: &[u8]) -> Option<usize>
    ensures { option_of result ≡ position (λ l. is_some l.address) (held tape.now) }
{
    let mut n = 0;
    for c in Commands::<false>::new(tape) {
        if let Event::Line { address, .. } = c.event {
            if address.is_some() {
                return Some(n);
            }
            n += 1;
        }
    }
    None
}

// Whether two addresses lie between two others.
fn is_within(low: u64, high: u64, lowest: u64, highest: u64) -> bool
    ensures { result ≡ (leb lowest low and leb high highest) }
{
    lowest <= low && high <= highest
}

// Whether the marks of some line of a tape hold two addresses between them.
fn is_held(tape: &[u8], low: u64, high: u64) -> bool
    ensures { result ≡ is_held tape.now (record { lowest = low; highest = high }) }
{
    let mut begun = false;
    let mut holds = false;
    for c in Commands::<false>::new(tape) {
        match c.event {
            Event::Line { .. } => {
                if holds {
                    return true;
                }
                begun = true;
            }
            Event::Marks {
                low: lowest,
                high: highest,
            } => holds = begun && is_within(low, high, lowest, highest),
            Event::Token { .. } => {}
        }
    }
    holds
}

// How many addresses and marks a raw tape has, and how many of them are held.
#[derive(Clone, Copy, Debug, PartialEq, Eq)]
pub struct Addresses {
    pub all: usize,
    pub held: usize,
}

impl Addresses {
    // With one more.
    fn with(self, cleaned: &[u8], low: u64, high: u64) -> Addresses
        requires all_fits { self.all + 1 < 2 ^ 64 }
        requires held_fits { self.held + 1 < 2 ^ 64 }
        ensures all { result.all ≡ self.all + 1 }
        ensures held { result.held ≡ self.held + one_if (is_held cleaned.now (record { lowest = low; highest = high })) }
    {
        Addresses {
            all: self.all + 1,
            held: self.held + usize::from(is_held(cleaned, low, high)),
        }
    }
}

// How many addresses and marks the raw tape has, and how many of them lie within the marks of some line of the cleaned tape.
pub fn count_held(raw: &[u8], cleaned: &[u8]) -> Addresses
    ensures all { result.all ≡ length (spans_in (commands raw.now)) }
    ensures held { result.held ≡ count (is_held cleaned.now) (spans_in (commands raw.now)) }
{
    let mut so_far = Addresses { all: 0, held: 0 };
    for c in Commands::<false>::new(raw) {
        so_far = match c.event {
            Event::Line { address, .. } => match address {
                Some(a) => so_far.with(cleaned, a, a),
                None => so_far,
            },
            Event::Marks { low, high } => so_far.with(cleaned, low, high),
            Event::Token { .. } => so_far,
        };
    }
    so_far
}
