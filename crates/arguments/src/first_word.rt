// A slice of words, one word after the other.
ghost use Rattle.std.specs.Prelude.{◌≡◌, [], MatchOption};
ghost use Rattle.words.specs.Splitting.{split};
ghost use Rattle.arguments.specs.Words.{FirstWord, is_at};

use words::word_end;

// The first word, and what stands behind it; none, if there is no byte.
pub fn next_word(words: &[u8]) -> Option<(&[u8], &[u8])>
    ensures { MatchOption result (split words.now ≡ []) (λ p. FirstWord words.now p.0.now p.1.now) }
{
    if words.is_empty() {
        return None;
    }
    let end = word_end(words, 0);
    if end < words.len() {
        Some((&words[..end], &words[end + 1..]))
    } else {
        Some((words, &words[..0]))
    }
}

// Whether word k is the one that was taken.
pub fn is_at(taken: Option<u64>, k: u64) -> bool
    ensures { result ≡ is_at taken k }
{
    taken == Some(k)
}
