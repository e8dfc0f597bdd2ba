// A text without the spaces at its edges, as a part of it: `trim_start` and `trim` of Rust's `str`, which drop other white space too. (An
// accepted tape's texts have none: their bytes are 20 to 7E.)
// Kept: by hand: std's `trim_ascii` also drops tabs and line feeds, and the definition, which is of any bytes, drops spaces alone.
#![tactic(auto, using(crate::proofs::Trims::edges))]

ghost use Rattle.std.specs.Prelude.{◌≡◌, reverse, eqb};
ghost use Rattle.std.specs.List.{prefix_len, suffix_len};
ghost use Rattle.reference.specs.Text.{trim_start, trim};

// How many spaces stand in front.
fn in_front(s: &[u8]) -> usize
    ensures { result ≡ prefix_len (λ b. eqb b 32) s.now }
{
    s.iter().take_while(|b| **b == b' ').count()
}

// How many spaces stand at the end.
fn at_end(s: &[u8]) -> usize
    ensures { result ≡ suffix_len (λ b. eqb b 32) s.now }
{
    s.iter().rev().take_while(|b| **b == b' ').count()
}

pub fn trim_start(s: &[u8]) -> &[u8]
    ensures { result.now ≡ trim_start s.now }
{
    &s[in_front(s)..]
}

fn trim_end(s: &[u8]) -> &[u8]
    ensures { result.now ≡ reverse (trim_start (reverse s.now)) }
{
    &s[..s.len() - at_end(s)]
}

pub fn trim(s: &[u8]) -> &[u8]
    ensures { result.now ≡ trim s.now }
{
    trim_end(trim_start(s))
}
