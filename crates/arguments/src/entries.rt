// Operands REG=VALUE: the registers of `start` and what they start with. Their list is the one that crate start takes.
ghost use Rattle.std.specs.Prelude.{◌≡◌, [], ◌+◌, ◌<◌, ◌≤◌, ◌==◌, length, position, MatchOption, if◌then◌else◌};
ghost use Rattle.text.specs.Cursor.{Fits, Puts};
ghost use Rattle.std.proofs.Math.Option.{none};
ghost use Rattle.arguments.specs.Entries.{equals_at, is_entry, entry_value, IsEntry, named_value, entry_bytes};

use text::Cursor;
use words::integer_in;

// Where the first = stands.
// Kept: beside `place_of` of crate listing_text: crate words, on which both rest, would have a public function more for this one line.
fn equals_in(word: &[u8]) -> Option<usize>
    ensures { result ≡ position (λ b. b == 61) word.now }
{
    word.iter().position(|b| *b == b'=')
}

// The same, or the length of the word where none stands.
pub(crate) fn equals_at(word: &[u8]) -> usize
    ensures value { result ≡ equals_at word.now }
    ensures within { result ≤ length word.now }
{
    equals_in(word).unwrap_or(word.len())
}

// Whether an operand has a =, and does not begin as the path of a file.
pub(crate) fn is_entry(word: &[u8]) -> bool
    ensures { result ≡ is_entry word.now }
{
    if word.starts_with(b".") || word.starts_with(b"/") {
        return false;
    }
    equals_in(word).is_some()
}

// How long a name can be: its length is told in a byte.
const LONGEST: usize = 255;

// The name and the value of an entry, if it has one and its name is not too long.
pub(crate) fn entry_in(word: &[u8]) -> Option<(&[u8], u64)>
    ensures { MatchOption result (entry_value word.now ≡ none) (λ p. IsEntry word.now p.0.now p.1) }
{
    let n = equals_in(word)?;
    if LONGEST < n {
        return None;
    }
    let value = integer_in(&word[n + 1..])?;
    Some((&word[..n], value))
}

// Puts a name behind its length, and its value in 8 bytes.
fn put_named(name: &[u8], v: u64, out: &mut Cursor)
    requires { (length name.now < 256) × Fits out.old (length name.now + 9) }
    ensures { Puts out.old (named_value name.now v) out.new }
{
    out.put_byte(name.len().to_le_bytes()[0]);
    out.put(name);
    out.put_le(v, 8);
}

// Puts the entry of a word; nothing of a word that is none.
fn put_entry(word: &[u8], out: &mut Cursor)
    requires { Fits out.old (length word.now + 9) }
    ensures { Puts out.old (entry_bytes word.now) out.new }
{
    if let Some((name, v)) = entry_in(word) {
        put_named(name, v, out);
    }
}

// Puts the entry of a word that was taken as one; nothing of any other word.
pub(crate) fn put_taken(taken: bool, word: &[u8], out: &mut Cursor)
    requires { Fits out.old (length word.now + 9) }
    ensures { Puts out.old (if taken then entry_bytes word.now else []) out.new }
{
    if taken {
        put_entry(word, out);
    }
}
