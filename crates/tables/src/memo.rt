// The memo of short tokens. The same few stand in a listing again and again: what was found of one, that it passes the questions of a
// token alone and its code, is right of the next.
//
// The key of a token whose text has at most five bytes is its whole command as one number, its bytes the lowest first. Equal keys are equal
// commands, since a key has its length in it. A key has one place in the two tables, and there its word as it is at offset 0.
ghost use Rattle.std.specs.Prelude.{◌≡◌, ◌+◌, ◌*◌, ◌^◌, ◌≤◌, ◌<◌, drop, IfSome, MatchOption};
ghost use Rattle.reference.specs.Options.{option_of};
ghost use Rattle.tables.specs.Memo.{key_of, Known, Memory, Recalled};

use tape::little_endian::number_at;

// How many places the tables have.
pub(crate) const PLACES: usize = 512;

// What stands in an empty place: no key, since the length in it is 65,535.
pub(crate) const EMPTY: u64 = u64::MAX;

// The bits of a command whose text has n bytes, if that is short.
fn mask_of(n: u64) -> Option<u64>
    ensures { MatchOption result (5 < n) (λ m. (n ≤ 5) × (m + 1 ≡ 2 ^ (8 * (3 + n)))) }
{
    match n {
        0 => Some(0xFF_FFFF),
        1 => Some(0xFFFF_FFFF),
        2 => Some(0xFF_FFFF_FFFF),
        3 => Some(0xFFFF_FFFF_FFFF),
        4 => Some(0xFF_FFFF_FFFF_FFFF),
        5 => Some(u64::MAX),
        _ => None,
    }
}

// The key of the token at an offset, if its text is short.
fn key_at(tape: &[u8], at: usize) -> Option<u64>
    requires { at + 8 < 65536 }
    ensures { option_of result ≡ key_of (drop at tape.now) }
{
    if tape.len() < at + 8 {
        return None;
    }
    let v = number_at(tape, at, 8);
    let mask = mask_of(v / 256 % 65536)?;
    Some(v & mask)
}

// The place of a key: the upper bits of a product that mixes all its bits. (Any factor is right. Of 30,000,000 tried on a list of common
// short tokens, as registers and Puncts, this one sends the fewest pairs to one place, each pair weighted by how common its tokens are.)
fn place_of(key: u64) -> usize
    ensures { result < 512 }
{
    (key.wrapping_mul(0x3469_6483_CE36_BB05) >> 55) as usize
}

// How much more a token's word is at an offset than at 0: that much is in its start.
fn moved_by(at: usize) -> u64
    requires { at < 65536 }
    ensures { result ≡ at * 16 }
{
    at as u64 * 16
}

// The word of the token at an offset, if it is remembered.
pub(crate) fn recall(
    tape: &[u8],
    at: usize,
    keys: &[u64; PLACES],
    words: &[u64; PLACES],
) -> Option<u64>
    requires { Memory keys.now words.now × (at + 8 < 65536) }
    ensures { IfSome result (λ w. Recalled tape.now at w) }
{
    let key = key_at(tape, at)?;
    let place = place_of(key);
    if keys[place] != key {
        return None;
    }
    Some(words[place] + moved_by(at))
}

// Remembers the word of the token at an offset, if its text is short, in place of what its place had.
pub(crate) fn remember(
    tape: &[u8],
    at: usize,
    w: u64,
    keys: &mut [u64; PLACES],
    words: &mut [u64; PLACES],
)
    requires { Memory keys.old words.old × (at + 8 < 65536) × Known tape.now at w }
    ensures { Memory keys.new words.new }
{
    if let Some(key) = key_at(tape, at) {
        let place = place_of(key);
        keys[place] = key;
        words[place] = w - moved_by(at);
    }
}
