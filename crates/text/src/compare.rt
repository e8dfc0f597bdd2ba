// Two texts compared, and a byte looked for: `==`, `starts_with`, `ends_with` and `contains` of Rust's `str`.
// Kept: each promises the definitions' word of std's answer, once, so that the some seventy calls cite no law. Tried: with
// `s.starts_with(b"0")` in place of `starts(s, b"0")` in `constant` of crate numbers, and with `contains` in `is_operator_byte` here, the
// search gives up at a limit, also with the rules `words_of_std` named: such answers would be by hand. `==` was proved with these rules, in
// `is_sign` of crate build; but it takes no literal beside a slice, and `s == b" + ".as_slice()` is no plainer than `same(s, b" + ")`.
#![tactic(auto, using(laws::proofs::Std::words_of_std))]

ghost use Rattle.std.specs.Prelude.{◌≡◌};
ghost use Rattle.reference.specs.Text.{◌≟◌, starts_with, ends_with, contains};

pub fn same(a: &[u8], b: &[u8]) -> bool
    ensures { result ≡ (a.now ≟ b.now) }
{
    a == b
}

pub fn starts(s: &[u8], front: &[u8]) -> bool
    ensures { result ≡ starts_with s.now front.now }
{
    s.starts_with(front)
}

pub fn ends(s: &[u8], back: &[u8]) -> bool
    ensures { result ≡ ends_with s.now back.now }
{
    s.ends_with(back)
}

pub fn has_byte(s: &[u8], b: u8) -> bool
    ensures { result ≡ contains s.now b }
{
    s.contains(&b)
}
