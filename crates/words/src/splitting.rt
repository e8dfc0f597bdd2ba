// The words of a slice: each ends with a byte 0, the last one there or with the slice.
ghost use Rattle.std.specs.Prelude.{◌≡◌, ◌≤◌, [], not, eqb, length, get_or};
ghost use Rattle.std.specs.List.{prefix_len};
ghost use Rattle.words.specs.Splitting.{split, number_of, EndsAt};

use text::same;

// How many bytes stand before the first 0.
// Kept: beside `count_before` of crate test_leaves, which rests on the leaves that it tests and on no words: for one line it would rest on
// this crate too.
fn before_zero(s: &[u8]) -> usize
    ensures { result ≡ prefix_len (λ b. not (eqb b 0)) s.now }
{
    s.iter().take_while(|b| **b != 0).count()
}

// Where the word that begins at `at` ends: at the first 0 from there on, or with the slice.
pub fn word_end(words: &[u8], at: usize) -> usize
    requires { at ≤ length words.now }
    ensures { EndsAt words.now at result }
{
    at + before_zero(&words[at..])
}

// The number of a word in a row of words, from 0; how many there are, if it is none of them.
// Kept: a loop: of a row that is empty or ends with a 0, `split` gives one empty piece more, where `position` would find an empty word, and
// which the number of words leaves out. With a test for each it is no plainer.
pub fn number_of(row: &[u8], word: &[u8]) -> u64
    ensures { result ≡ number_of (split row.now) word.now }
{
    let mut n: u64 = 0;
    let mut at = 0;
    while at < row.len() {
        let e = word_end(row, at);
        if same(&row[at..e], word) {
            return n;
        }
        n += 1;
        at = e + 1;
    }
    n
}

// The word of a row that has a number, from 0; nothing past the last one. Behind a last 0 `split` gives one empty piece more, which is
// nothing too.
pub fn nth_word(row: &[u8], n: u64) -> &[u8]
    ensures { result.now ≡ get_or (split row.now) n [] }
{
    // Kept: a cast: the numbers of words are `u64` in `Request` of crate arguments and in its definitions, and a `usize` holds 64 bits
    // wherever this is built. `usize::try_from` is no plainer: a second way to `&[]` would stand beside `unwrap_or`.
    row.split(|b| *b == 0).nth(n as usize).unwrap_or(&[])
}
