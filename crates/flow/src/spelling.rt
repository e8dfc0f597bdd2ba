// The form of a line, as it is put together: its bytes one after the other. Only whether it is one of a few short texts is asked of it, and
// which braces stay unmatched; so its first ten bytes and two numbers are kept, and no more.
#![tactic(auto, using(laws::proofs::Std::tests_of_std))]

ghost use Rattle.std.specs.Prelude.{ℕ, ◌≡◌, ◌+◌, ◌≤◌, ◌<◌, ◌∷◌, ◌++◌, [], length};
ghost use Rattle.reference.specs.Text.{Text};
ghost use Rattle.flow.specs.Spelling.{spelled, Short, FirstByte, BraceByte};

// The first bytes, how many they are, and how many `}` and `{` of all have no partner.
#[derive(Clone, Copy)]
pub(crate) struct Spelling {
    pub bytes: [u8; 10],
    pub len: usize,
    pub closes: usize,
    pub opens: usize,
}

// Nothing.
pub(crate) const NO_SPELLING: Spelling = Spelling {
    bytes: [0; 10],
    len: 0,
    closes: 0,
    opens: 0,
};

// The byte b behind the first ones, if there is room.
fn with_first(f: Spelling, b: u8) -> Spelling
    requires { (f.len ≤ 10) × (length f.bytes ≡ 10) }
    ensures { FirstByte f b result }
{
    if f.len < 10 {
        let mut bytes = f.bytes;
        bytes[f.len] = b;
        return Spelling {
            bytes,
            len: f.len + 1,
            ..f
        };
    }
    f
}

// The braces without a partner, one byte more.
fn with_brace(f: Spelling, b: u8) -> Spelling
    requires { Short f 1099511627776 }
    ensures { BraceByte f b result }
{
    if b == b'{' {
        return Spelling {
            opens: f.opens + 1,
            ..f
        };
    }
    if b != b'}' {
        return f;
    }
    if f.opens == 0 {
        return Spelling {
            closes: f.closes + 1,
            ..f
        };
    }
    Spelling {
        opens: f.opens - 1,
        ..f
    }
}

// One byte more.
pub(crate) fn with_byte(f: Spelling, b: u8) -> Spelling
    requires { Short f 1099511627776 }
    ensures is { (s : Text) → spelled result s ≡ spelled f (b ∷ s) }
    ensures few { (n : ℕ) → Short f n → Short result (n + 1) }
{
    with_first(with_brace(f, b), b)
}

// A text more.
pub(crate) fn with_text(f: Spelling, s: &[u8]) -> Spelling
    requires { Short f 1099511562240 × (length s.now < 65536) }
    ensures is { (more : Text) → spelled result more ≡ spelled f (s.now ++ more) }
    ensures few { (n : ℕ) → Short f n → Short result (n + length s.now) }
{
    let mut g = f;
    for b in s {
        g = with_byte(g, *b);
    }
    g
}
