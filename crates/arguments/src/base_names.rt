// Files that would be written to one: with -d a result gets the base name of its file.
ghost use Rattle.std.specs.Prelude.{◌≡◌, ◌+◌, ◌^◌, ◌<◌, ◌&&◌, length, if◌then◌else◌};
ghost use Rattle.reference.specs.Text.{◌≟◌};
ghost use Rattle.words.specs.Splitting.{split};
ghost use Rattle.arguments.specs.Names.{base_name, same_later, clash_of};
ghost use Rattle.arguments.specs.Words.{is_at};

use crate::first_word::{is_at, next_word};
use crate::request::Request;

// What parts the names of a path.
const SLASH: u8 = b'/';

// The base name of a path: what stands behind its last slash.
pub fn base_name(path: &[u8]) -> &[u8]
    ensures { result.now ≡ base_name path.now }
{
    // Kept: std's `rposition` was tried: the search left both ends open (`returns-in-Some`, `returns-in-None`), since no law in laws::Std
    // turns what it promises into the definition's recursion, and none was written for it.
    let mut base = path;
    for (i, b) in path.iter().enumerate() {
        if *b == SLASH {
            base = &path[i + 1..];
        }
    }
    base
}

// Whether the word that was taken last is word k, and two paths have one base name.
fn is_taken_same(taken: Option<u64>, k: u64, a: &[u8], b: &[u8]) -> bool
    ensures { result ≡ (is_at taken k && (base_name a.now ≟ base_name b.now)) }
{
    is_at(taken, k) && base_name(a) == base_name(b)
}

// Of the words from number k on, the first operand that has the base name of a path. s is what is known before it.
// Kept: (s, k, words) are three parameters, here and below: a struct of them would be made for these two, and taken apart in both
// contracts.
fn same_later(path: &[u8], s: Request, k: u64, words: &[u8]) -> Option<u64>
    requires { k + length words.now < 2 ^ 64 }
    ensures { result ≡ same_later path.now s k (split words.now) }
{
    let mut t = s;
    // Kept: counted by hand, as in `parse` (reading.rt says why).
    let mut n = k;
    let mut left = words;
    while let Some((word, rest)) = next_word(left) {
        t = t.step(n, word);
        if is_taken_same(t.operands.last, n, path, word) {
            return Some(n);
        }
        n += 1;
        left = rest;
    }
    None
}

// The first later operand with the base name of a path, if that path was taken as an operand.
fn taken_later(taken: bool, path: &[u8], s: Request, k: u64, words: &[u8]) -> Option<u64>
    requires { k + length words.now < 2 ^ 64 }
    ensures { result ≡ (if taken then same_later path.now s k (split words.now) else None) }
{
    if taken {
        same_later(path, s, k, words)
    } else {
        None
    }
}

// The number of an operand that has the base name of one before it.
pub fn clash(words: &[u8]) -> Option<u64>
    ensures { result ≡ clash_of (split words.now) }
{
    let mut s = Request::begin();
    // Kept: counted by hand, and by what is left, which `next_word` hands out beside each word and which is looked through here: a `for`
    // holds its iterator, so that the rest would be cut out of `words` by an offset of its own.
    let mut k: u64 = 0;
    let mut left = words;
    while let Some((word, rest)) = next_word(left) {
        s = s.step(k, word);
        if let Some(other) = taken_later(is_at(s.operands.last, k), word, s, k + 1, rest) {
            return Some(other);
        }
        k += 1;
        left = rest;
    }
    None
}
