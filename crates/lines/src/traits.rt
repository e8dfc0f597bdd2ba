// The traits of a token: all that the cleaner asks of its kind and its text, a bit for each test (specs/Traits). They are found once and
// kept in the token's word.
ghost use Rattle.std.specs.Prelude.{◌≡◌, ◌<◌, true, ltb, length, IfSome};
ghost use Rattle.reference.specs.Control.{not, ◌and◌, ◌or◌};
ghost use Rattle.reference.specs.Text.{◌≟◌, bytes, contains, starts_with, trim};
ghost use Rattle.reference.specs.Lists.{any};
ghost use Rattle.reference.specs.Listing.{token};
ghost use Rattle.text.specs.Punctuation.{updates};
ghost use Rattle.lines.specs.Traits.{number, only, traits, trait, kw_place};
ghost use Rattle.lines.specs.Words.{known_word};
ghost use Rattle.lines.specs.Edges.{Plain, Word};
ghost use Rattle.lines.specs.Texts.{Points, token_of};

use crate::texts::Texts;
use crate::words;
use ground::kinds;

// ---- the places of the traits: of tokens of any kind

pub const KNOWN: u64 = 0;

pub const COLON: u64 = 1;

pub const SLOT: u64 = 2;

pub const AMPERSAND: u64 = 3;

pub const SEMICOLON: u64 = 4;

pub const DELIMITS_BEFORE: u64 = 5;

pub const DELIMITS_AFTER: u64 = 6;

pub const SIGN: u64 = 7;

pub const PLUS: u64 = 8;

// ---- of Keywords

pub const WHILE: u64 = 9;

pub const GOTO: u64 = 10;

pub const RETURN: u64 = 11;

pub const DO: u64 = 12;

pub const CAST: u64 = 13;

pub const DEREFERENCE: u64 = 14;

// ---- of Puncts

pub const BRACE: u64 = 15;

pub const BRACKET: u64 = 16;

pub const ASSIGN: u64 = 17;

pub const EQUAL: u64 = 18;

pub const WRITES: u64 = 19;

pub const OPERATOR: u64 = 20;

// A Keyword that the cleaner asks for by its whole text.
#[derive(Clone, Copy)]
pub enum Kw {
    While,
    Goto,
    Return,
    Do,
}

// ---- the traits of a text

// The bit at a place, where the test holds.
fn bit_if(holds: bool, place: u64) -> u64
    requires { place < 64 }
    ensures { result ≡ number (only place holds) }
{
    if holds { 1 << place } else { 0 }
}

#[tactic(auto, using(laws::proofs::Std::tests_of_std))]
fn is_sign(s: &[u8]) -> bool
    ensures { result ≡ ((s.now ≟ bytes " + ") or (s.now ≟ bytes " - ")) }
{
    text::same(s, b" + ") || text::same(s, b" - ")
}

// Whether a byte neither begins nor ends what is asked of a text whatever its kind, `var_` apart.
fn is_plain(b: u8) -> bool
    ensures { result ≡ true → Plain b }
{
    b'-' <= b && b != b':' && b != b';'
}

// Whether a text is a word: several bytes, plain at both edges.
fn is_word(s: &[u8]) -> bool
    ensures { result ≡ true → Word s.now }
{
    match s {
        [first, .., last] => is_plain(*first) && is_plain(*last),
        _ => false,
    }
}

// What a word has whatever its kind.
fn word_traits(s: &[u8]) -> u64
    requires { Word s.now }
    ensures { result ≡ traits (token 5 s.now) }
{
    bit_if(true, KNOWN) | bit_if(text::starts(s, b"var_"), SLOT)
}

// What a text has whatever its kind: an Address is asked no more.
fn text_traits(s: &[u8]) -> u64
    ensures { result ≡ traits (token 5 s.now) }
{
    if is_word(s) {
        return word_traits(s);
    }
    bit_if(true, KNOWN)
        | bit_if(text::same(s, b":"), COLON)
        | bit_if(text::starts(s, b"var_"), SLOT)
        | bit_if(text::ends(s, b"&"), AMPERSAND)
        | bit_if(text::ends(s, b";"), SEMICOLON)
        | bit_if(text::delimits_before(s), DELIMITS_BEFORE)
        | bit_if(text::delimits_after(s), DELIMITS_AFTER)
        | bit_if(is_sign(s), SIGN)
        | bit_if(text::same(s, b" + "), PLUS)
}

fn keyword_traits(s: &[u8]) -> u64
    ensures { result ≡ traits (token 3 s.now) }
{
    text_traits(s)
        | bit_if(text::same(s, b"while"), WHILE)
        | bit_if(text::same(s, b"goto"), GOTO)
        | bit_if(text::same(s, b"return"), RETURN)
        | bit_if(text::same(s, b"do"), DO)
        | bit_if(text::starts(s, b"((void"), CAST)
        | bit_if(text::starts(s, b"*("), DEREFERENCE)
}

// Whether a text has a space at an edge, and no comma alone between its edge spaces.
fn is_spaced(s: &[u8]) -> bool
    ensures { result ≡ (ltb (length (trim s.now)) (length s.now) and not (trim s.now ≟ bytes ",")) }
{
    let t = text::trim(s);
    t.len() < s.len() && !text::same(t, b",")
}

// Whether a text has a brace, in one pass.
fn has_brace(s: &[u8]) -> bool
    ensures { result ≡ (contains s.now 123 or contains s.now 125) }
{
    s.iter().any(|b| *b == b'{' || *b == b'}')
}

// Whether a text writes what stands before it: ` = `, which is never ` ==`, or an operator with it. Its first byte tells of most that they
// do not.
#[tactic(auto, using(laws::proofs::Std::tests_of_std))]
fn is_writing(s: &[u8]) -> bool
    ensures { result ≡ (starts_with s.now (bytes " = ") or any (starts_with s.now) updates) }
{
    let [b, ..] = s else {
        return false;
    };
    if *b != b' ' && *b != b'+' && *b != b'-' {
        return false;
    }
    text::starts(s, b" = ") || text::begins_update(s)
}

// The traits of the texts that most Puncts have, in numbers that the definition computes.
#[tactic(auto, using(crate::proofs::traits::Common::common))]
fn common_traits(s: &[u8]) -> Option<u64>
    ensures { IfSome result (λ m. m ≡ traits (token 6 s.now)) }
{
    match s {
        [b';'] | [b')', b';'] => Some(81),
        [b'('] => Some(65569),
        [b')'] => Some(65),
        [b':'] => Some(3),
        [b',', b' '] => Some(97),
        [b' ', b'=', b' '] => Some(1703969),
        [b' ', b'+', b' '] => Some(1048961),
        [b' ', b'-', b' '] => Some(1048705),
        _ => None,
    }
}

fn punct_traits(s: &[u8]) -> u64
    ensures { result ≡ traits (token 6 s.now) }
{
    if let Some(m) = common_traits(s) {
        return m;
    }
    text_traits(s)
        | bit_if(has_brace(s), BRACE)
        | bit_if(text::starts(s, b"("), BRACKET)
        | bit_if(text::starts(s, b" = "), ASSIGN)
        | bit_if(text::starts(s, b" =="), EQUAL)
        | bit_if(is_writing(s), WRITES)
        | bit_if(is_spaced(s), OPERATOR)
}

// The traits of a token of this kind with the text s.
pub fn traits_of(kind: u64, s: &[u8]) -> u64
    ensures { result ≡ traits (token kind s.now) }
{
    match kind {
        kinds::KEYWORD => keyword_traits(s),
        kinds::PUNCT => punct_traits(s),
        _ => text_traits(s),
    }
}

// The word of a token of this kind with the text s, which stands at `start` of the area, with its traits.
#[tactic(auto, using(crate::proofs::traits::Tests::traits_below))]
pub fn area_word(kind: u64, start: usize, s: &[u8]) -> u64
    requires { (kind < 8) × (start < 65536) × (length s.now < 65536) }
    ensures { result ≡ known_word kind 1 start s.now }
{
    let w = words::token_word(kind, words::IN_AREA, start, s.len());
    words::with_coding(w, 0, traits_of(kind, s))
}

// ---- the traits of a token

// Those that its word keeps, and where it keeps none those of its text.
fn traits(texts: &Texts<'_>, w: u64) -> u64
    requires { Points texts.now w }
    ensures { result ≡ traits (token_of texts.now w) }
{
    let kept = words::traits(w);
    if kept != 0 {
        return kept;
    }
    traits_of(words::kind(w), words::text(texts, w))
}

// Whether a token has the trait at a place.
pub fn has(texts: &Texts<'_>, w: u64, place: u64) -> bool
    requires { Points texts.now w × (place < 21) }
    ensures { result ≡ trait place (token_of texts.now w) }
{
    (traits(texts, w) >> place) % 2 == 1
}

// The trait of a Keyword with that text.
pub(crate) fn kw_trait(kw: Kw) -> u64
    ensures { result ≡ kw_place kw }
{
    match kw {
        Kw::While => WHILE,
        Kw::Goto => GOTO,
        Kw::Return => RETURN,
        Kw::Do => DO,
    }
}
