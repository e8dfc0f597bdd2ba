// The form of a line, put together from its tokens: its control words, then its bytes `{`, `}`, `;` and `?`; or a `:`, where it has none.
#![tactic(auto, using(laws::proofs::Std::tests_of_std))]

ghost use Rattle.std.specs.Prelude.{ℕ, ◌≡◌, ◌+◌, ◌*◌, ◌≤◌, ◌<◌, ◌∷◌, ◌++◌, [], length};
ghost use Rattle.reference.specs.Lists.{any};
ghost use Rattle.reference.specs.Text.{Text, bytes, has, contains};
ghost use Rattle.cautions.specs.Forms.{CASES, CONTROL, words_in, signs_in, form};
ghost use Rattle.flow.specs.Forms.{SIGNS, word_of, signs_of, token_signs, has_colon};
ghost use Rattle.flow.specs.Spelling.{spelled, Short, Spells};
ghost use Rattle.lines.specs.Texts.{Holds, Points, token_of, tokens_of};

use crate::spelling::{self, NO_SPELLING, Spelling};
use ground::kinds;
use lines::texts::Texts;
use lines::words;

// ---- control words

// Whether a text is a word of control.
pub fn is_control_word(s: &[u8]) -> bool
    ensures { result ≡ has CONTROL s.now }
{
    text::same(b"if", s)
        || text::same(b"else", s)
        || text::same(b"do", s)
        || text::same(b"while", s)
        || text::same(b"for", s)
        || text::same(b"goto", s)
        || text::same(b"return", s)
        || text::same(b"break", s)
        || text::same(b"continue", s)
        || text::same(b"switch", s)
}

// Whether it is one that makes its line a case.
pub fn is_case_word(s: &[u8]) -> bool
    ensures { result ≡ has CASES s.now }
{
    text::same(b"case", s) || text::same(b"default", s)
}

// The control word that a token is, if it is one.
fn with_word(f: Spelling, texts: &Texts<'_>, w: u64) -> Spelling
    requires { Short f 1099511562240 × Points texts.now w }
    ensures is { (more : Text) → spelled result more ≡ spelled f (word_of (token_of texts.now w) ++ more) }
    ensures few { (n : ℕ) → Short f n → Short result (n + 65535) }
{
    if words::kind(w) != kinds::KEYWORD {
        return f;
    }
    let s = words::text(texts, w);
    if !is_control_word(s) {
        return f;
    }
    spelling::with_text(f, s)
}

// Those of a line.
fn with_words(f: Spelling, texts: &Texts<'_>, line: &[u64]) -> Spelling
    requires { Short f 1048576 × Holds texts.now line.now × (length line.now < 65536) }
    ensures is { (more : Text) → spelled result more ≡ spelled f (words_in CONTROL (tokens_of texts.now line.now) ++ more) }
    ensures few { (n : ℕ) → Short f n → Short result (n + 65535 * length line.now) }
{
    let mut g = f;
    for w in line {
        g = with_word(g, texts, *w);
    }
    g
}

// ---- signs

// A byte, if it is a sign.
fn with_sign(f: Spelling, b: u8) -> Spelling
    requires { Short f 1099511627776 }
    ensures is { (more : Text) → spelled result more ≡ spelled f (signs_of (b ∷ []) ++ more) }
    ensures few { (n : ℕ) → Short f n → Short result (n + 1) }
{
    if text::has_byte(b"{};?", b) {
        return spelling::with_byte(f, b);
    }
    f
}

// The signs of a text.
fn with_signs_of(f: Spelling, s: &[u8]) -> Spelling
    requires { Short f 1099511562240 × (length s.now < 65536) }
    ensures is { (more : Text) → spelled result more ≡ spelled f (signs_of s.now ++ more) }
    ensures few { (n : ℕ) → Short f n → Short result (n + length s.now) }
{
    let mut g = f;
    for b in s {
        g = with_sign(g, *b);
    }
    g
}

// Those of a token.
fn with_signs_in(f: Spelling, texts: &Texts<'_>, w: u64) -> Spelling
    requires { Short f 1099511562240 × Points texts.now w }
    ensures is { (more : Text) → spelled result more ≡ spelled f (token_signs (token_of texts.now w) ++ more) }
    ensures few { (n : ℕ) → Short f n → Short result (n + 65535) }
{
    if words::kind(w) != kinds::PUNCT {
        return f;
    }
    with_signs_of(f, words::text(texts, w))
}

// Those of a line.
fn with_signs(f: Spelling, texts: &Texts<'_>, line: &[u64]) -> Spelling
    requires { Short f 8589934592 × Holds texts.now line.now × (length line.now < 65536) }
    ensures is { (more : Text) → spelled result more ≡ spelled f (signs_in SIGNS (tokens_of texts.now line.now) ++ more) }
    ensures few { (n : ℕ) → Short f n → Short result (n + 65535 * length line.now) }
{
    let mut g = f;
    for w in line {
        g = with_signs_in(g, texts, *w);
    }
    g
}

// ---- the form

// Whether a token has a `:`.
#[tactic(auto, using(lines::proofs::shapes::Tests::token_tests), unfolding(crate::specs::Forms::has_colon))]
fn has_colon(texts: &Texts<'_>, w: u64) -> bool
    requires { Points texts.now w }
    ensures { result ≡ has_colon (token_of texts.now w) }
{
    words::kind(w) == kinds::PUNCT && text::has_byte(words::text(texts, w), b':')
}

fn colon_in(texts: &Texts<'_>, line: &[u64]) -> bool
    requires { Holds texts.now line.now }
    ensures { result ≡ any has_colon (tokens_of texts.now line.now) }
{
    line.iter().any(|w| has_colon(texts, *w))
}

// The statement of a line: its form, if it has one without the `:`.
fn statement_of(texts: &Texts<'_>, line: &[u64]) -> Spelling
    requires { Holds texts.now line.now × (length line.now < 65536) }
    ensures is { Spells result (words_in CONTROL (tokens_of texts.now line.now) ++ signs_in SIGNS (tokens_of texts.now line.now)) }
    ensures few { Short result 8589934592 }
{
    with_signs(with_words(NO_SPELLING, texts, line), texts, line)
}

// The form of a line.
pub(crate) fn form_of(texts: &Texts<'_>, line: &[u64]) -> Spelling
    requires { Holds texts.now line.now × (length line.now < 65536) }
    ensures is { Spells result (form (tokens_of texts.now line.now)) }
    ensures few { Short result 8589934593 }
{
    let f = statement_of(texts, line);
    if f.len == 0 && colon_in(texts, line) {
        return spelling::with_byte(f, b':');
    }
    f
}
