// Whether an expression is 0 or 1: a comparison stands outside its brackets, or a `!` in front. A scan takes one byte after the other and
// is told apart from the text, since the bytes outside brackets stand in no slice.
#![tactic(auto, using(laws::proofs::Std::tests_of_std))]

ghost use Rattle.std.specs.Prelude.{◌≡◌, ◌∷◌, [], eqb};
ghost use Rattle.reference.specs.Control.{not, ◌and◌, ◌or◌};
ghost use Rattle.reference.specs.Text.{Text};
ghost use Rattle.flow.specs.Compared.{alone, with_equals, compares_in, begins_at, compared};

// The three bytes that were read last (0: none), with the first of which a comparison may begin once the next one is known; whether any was
// read; whether the text is known to be 0 or 1.
#[derive(Clone, Copy)]
pub(crate) struct Comparing {
    pub first: u8,
    pub second: u8,
    pub third: u8,
    pub begun: bool,
    pub found: bool,
}

// Nothing read.
pub(crate) const NOT_COMPARING: Comparing = Comparing {
    first: 0,
    second: 0,
    third: 0,
    begun: false,
    found: false,
};

// Whether these two bytes are the sign s and a space.
#[tactic(auto, using(laws::proofs::Std::tests_of_std), unfolding(crate::specs::Compared::alone))]
fn alone(s: u8, b: u8, c: u8) -> bool
    ensures { result ≡ alone s b c }
{
    b == s && c == b' '
}

// Whether these three bytes are the sign s, a `=` and a space.
#[tactic(auto, using(laws::proofs::Std::tests_of_std), unfolding(crate::specs::Compared::with_equals))]
fn with_equals(s: u8, b: u8, c: u8, d: u8) -> bool
    ensures { result ≡ with_equals s b c d }
{
    b == s && c == b'=' && d == b' '
}

// Whether a comparison stands in these three bytes, if a space stands in front.
#[tactic(auto, using(laws::proofs::Scans::tests), unfolding(crate::specs::Compared::compares_in))]
fn compares_in(b: u8, c: u8, d: u8) -> bool
    ensures { result ≡ compares_in b c d }
{
    with_equals(b'=', b, c, d)
        || with_equals(b'!', b, c, d)
        || alone(b'<', b, c)
        || alone(b'>', b, c)
        || with_equals(b'<', b, c, d)
        || with_equals(b'>', b, c, d)
}

// Whether a comparison begins with these four bytes (0: none).
#[tactic(auto, using(laws::proofs::Std::tests_of_std), unfolding(crate::specs::Compared::begins_at))]
fn begins_at(a: u8, b: u8, c: u8, d: u8) -> bool
    ensures { result ≡ begins_at a b c d }
{
    a == b' ' && compares_in(b, c, d)
}

// Whether the text is found to be 0 or 1, now that d follows.
fn found_by(found: bool, m: Comparing, d: u8) -> bool
    ensures { result ≡ (found or begins_at m.first m.second m.third d) }
{
    found || begins_at(m.first, m.second, m.third, d)
}

// Whether it is found to be 0 or 1 before or by the byte b, a `!` in front.
fn found_at(m: Comparing, b: u8) -> bool
    ensures { result ≡ (m.found or (not m.begun and eqb b 33)) }
{
    m.found || !m.begun && b == b'!'
}

// One byte more.
pub(crate) fn with_byte(m: Comparing, b: u8) -> Comparing
    ensures { (s : Text) → compared result s ≡ compared m (b ∷ s) }
{
    let found = found_by(found_at(m, b), m, b);
    Comparing {
        first: m.second,
        second: m.third,
        third: b,
        begun: true,
        found,
    }
}

// Whether the text is 0 or 1, now that nothing follows.
pub(crate) fn total(m: Comparing) -> bool
    ensures { result ≡ compared m [] }
{
    found_by(m.found, m, 0)
}
