// The sets of kinds that the library's call writes, two bytes for each finished line, the low one first.
ghost use Rattle.std.specs.Prelude.{◌≡◌};
ghost use Rattle.caution_words.specs.Sets.{set_at, count_cautioned};

// The set of line q, from 0; the empty one where there is no such line.
pub fn set_at(sets: &[u8], q: usize) -> u16
    ensures { result ≡ set_at sets.now q }
{
    if q < sets.len() / 2 {
        u16::from_le_bytes([sets[2 * q], sets[2 * q + 1]])
    } else {
        0
    }
}

// How many lines have a caution.
pub fn count_cautioned(sets: &[u8]) -> usize
    ensures { result ≡ count_cautioned sets.now }
{
    let mut n = 0;
    for q in 0..sets.len() / 2 {
        if set_at(sets, q) != 0 {
            n += 1;
        }
    }
    n
}
