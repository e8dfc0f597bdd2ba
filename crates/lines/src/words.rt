// Token words and line words: a token and a line, each in one number, read by / and %.
//
// A token word: kind in 3 bits, buffer in 1 bit, start in 16 bits, length in 16 bits, and above them
// 0 or what is known of its text: its code in 6 bits (codes.rt), and its traits (traits.rt). Its text is
// `len` bytes from `start` on, in the tape or, once rewritten, in the area.
// A line word: first token in 16 bits, count in 11 bits, indent in 6 bits, whether it has an
// address in 1 bit, and its origin, the number of the input line that it was, in 8 bits; above them
// its facts (crate linefacts). (The address itself stands in a table, by the line's origin.)
//
// Kept: words that point into buffers. There is no heap, so that tokens and lines stand in arrays of a fixed size; and the area is written
// while words point into it, which no reference to a part of it would allow.
ghost use Rattle.std.specs.Prelude.{◌≡◌, ◌+◌, ◌/◌, ◌%◌, ◌≤◌, ◌<◌, eqb, length};
ghost use Rattle.lines.specs.Words.{kind_of, buffer_of, start_of, len_of, traits_of, word, with_coding, moved, without_first, first_bytes};
ghost use Rattle.lines.specs.Words.{without_last, CodeIs};
ghost use Rattle.lines.specs.Lines.{first_of, count_of, indent_of, addressed_of, origin_of, facts_of, with_facts, flag, line_word};
ghost use Rattle.lines.specs.Lines.{with_part, part_of};
ghost use Rattle.lines.specs.Texts.{Points, text_of};

use crate::texts::Texts;

// What the lowest bit counts of a token's code, and of a line's facts: they stand above all else in their words, from bit 36 and bit 42 on.
// Above the code, which is below `CODES`, stand the traits.
const CODE: u64 = 68719476736;

const CODES: u64 = 64;

const FACTS: u64 = 4398046511104;

// What the lowest bit counts of a token's length, above which all stands that is known of its text.
const LEN: u64 = 1048576;

// The buffers that hold a text.
// Kept: the two values of one bit of a word, as the definitions have it. An enum would need a function to the bit and one from it. A `bool`
// would spare one clause, `buffer < 2` of `token_word`; but calls would say `true` where they say `IN_AREA`, or name it as here.
pub const IN_TAPE: u64 = 0;

pub const IN_AREA: u64 = 1;

// A place, a length or a number of an input line, to be put into a word.
// Kept: a cast: `u64` has no `From<usize>`, and `u64::try_from` is no plainer, since it asks what to do where 64 bits do not hold the
// number, which is nowhere.
fn wide(n: usize) -> u64
    ensures { result ≡ n }
{
    n as u64
}

// A place, a length or a number of an input line, read from a word: the part of `size` values whose lowest bit counts `unit`.
// Kept: a cast: `usize` has no `From<u64>`, and `usize::try_from` is no plainer, since it asks what to do where the part does not fit,
// which is nowhere.
fn part(w: u64, unit: u64, size: u64) -> usize
    requires { (0 < unit) × (0 < size) }
    ensures { result ≡ w / unit % size }
{
    (w / unit % size) as usize
}

#[tactic(auto, unfolding(crate::specs::Words::word))]
pub fn token_word(kind: u64, buffer: u64, start: usize, len: usize) -> u64
    requires { (kind < 8) × (buffer < 2) × (start < 65536) × (len < 65536) }
    ensures { result ≡ word kind buffer start len }
{
    kind + buffer * 8 + wide(start) * 16 + wide(len) * 1048576
}

#[tactic(auto, unfolding(crate::specs::Words::kind_of))]
pub fn kind(w: u64) -> u64
    ensures { result ≡ kind_of w }
{
    w % 8
}

#[tactic(auto, unfolding(crate::specs::Words::buffer_of))]
pub fn buffer(w: u64) -> u64
    ensures { result ≡ buffer_of w }
{
    w / 8 % 2
}

#[tactic(auto, unfolding(crate::specs::Words::start_of))]
pub fn start(w: u64) -> usize
    ensures { result ≡ start_of w }
{
    part(w, 16, 65536)
}

#[tactic(auto, unfolding(crate::specs::Words::len_of))]
pub fn len(w: u64) -> usize
    ensures { result ≡ len_of w }
{
    part(w, 1048576, 65536)
}

// The code of the token's text.
#[tactic(auto, unfolding(crate::specs::Words::code_of, crate::specs::Words::coding_of))]
pub fn code(w: u64) -> Option<u64>
    ensures { CodeIs w result }
{
    match w / CODE % CODES {
        0 => None,
        c => Some(c),
    }
}

// The traits of the token, 0 where they are not known.
#[tactic(auto, unfolding(crate::specs::Words::traits_of, crate::specs::Words::coding_of))]
pub(crate) fn traits(w: u64) -> u64
    ensures { result ≡ traits_of w }
{
    w / CODE / CODES
}

// The token with the code c, or 0, and the traits m.
#[tactic(auto, unfolding(crate::specs::Words::with_coding))]
pub(crate) fn with_coding(w: u64, c: u64, m: u64) -> u64
    requires { (c < 64) × (m < 4194304) }
    ensures { result ≡ with_coding w c m }
{
    w % CODE + (c + m * CODES) * CODE
}

// The token with its text at `start` of the area. What is known of it goes along.
#[tactic(auto, unfolding(crate::specs::Words::moved, crate::specs::Words::kind_of))]
pub fn moved(w: u64, start: usize) -> u64
    requires { start < 65536 }
    ensures { result ≡ moved w start }
{
    w % 8 + 8 + wide(start) * 16 + w / LEN * LEN
}

// The token without the first n bytes of its text.
#[tactic(auto, using(crate::proofs::words::Tokens::bounds), unfolding(crate::specs::Words::without_first))]
pub(crate) fn without_first(w: u64, n: usize) -> u64
    requires { (n ≤ len_of w) × (start_of w + len_of w < 65536) }
    ensures { result ≡ without_first w n }
{
    token_word(kind(w), buffer(w), start(w) + n, len(w) - n)
}

// The token of the first n bytes of its text.
#[tactic(auto, using(crate::proofs::words::Tokens::bounds), unfolding(crate::specs::Words::first_bytes))]
pub(crate) fn first_bytes(w: u64, n: usize) -> u64
    requires { n ≤ len_of w }
    ensures { result ≡ first_bytes w n }
{
    token_word(kind(w), buffer(w), start(w), n)
}

// The token without the last byte of its text.
pub(crate) fn without_last(w: u64) -> u64
    requires { 1 ≤ len_of w }
    ensures { result ≡ without_last w }
{
    first_bytes(w, len(w) - 1)
}

// The text of a token: a part of the tape, or of the area once it was rewritten.
#[tactic(auto, using(crate::proofs::words::Tokens::text_parts))]
pub fn text<'a>(texts: &Texts<'a>, w: u64) -> &'a [u8]
    requires { Points texts.now w }
    ensures { result.now ≡ text_of texts.now w }
{
    let from = start(w);
    let to = from + len(w);
    if buffer(w) == IN_TAPE {
        return &texts.tape[from..to];
    }
    &texts.area[from..to]
}

#[tactic(auto, unfolding(crate::specs::Lines::line_word))]
pub fn line_word(first: usize, count: usize, indent: u64, addressed: bool, origin: usize) -> u64
    requires { (first < 65536) × (count < 2048) × (indent < 64) × (origin < 256) }
    ensures { result ≡ line_word first count indent (flag addressed) origin }
{
    wide(first)
        + wide(count) * 65536
        + indent * 134217728
        + u64::from(addressed) * 8589934592
        + wide(origin) * 17179869184
}

#[tactic(auto, unfolding(crate::specs::Lines::first_of))]
pub fn first(l: u64) -> usize
    ensures { result ≡ first_of l }
{
    part(l, 1, 65536)
}

#[tactic(auto, unfolding(crate::specs::Lines::count_of))]
pub fn count(l: u64) -> usize
    ensures { result ≡ count_of l }
{
    part(l, 65536, 2048)
}

#[tactic(auto, unfolding(crate::specs::Lines::indent_of))]
pub fn indent(l: u64) -> u64
    ensures { result ≡ indent_of l }
{
    l / 134217728 % 64
}

// Whether the line has an address.
#[tactic(auto, unfolding(crate::specs::Lines::addressed_of))]
pub fn addressed(l: u64) -> bool
    ensures { result ≡ eqb (addressed_of l) 1 }
{
    l / 8589934592 % 2 == 1
}

#[tactic(auto, unfolding(crate::specs::Lines::origin_of))]
pub fn origin(l: u64) -> usize
    ensures { result ≡ origin_of l }
{
    part(l, 17179869184, 256)
}

#[tactic(auto, unfolding(crate::specs::Lines::facts_of))]
pub fn facts(l: u64) -> u64
    ensures { result ≡ facts_of l }
{
    l / FACTS
}

// The line with the facts m.
#[tactic(auto, unfolding(crate::specs::Lines::with_facts))]
pub fn with_facts(l: u64, m: u64) -> u64
    requires { m < 4194304 }
    ensures { result ≡ with_facts l m }
{
    l % FACTS + m * FACTS
}

// The line with its tokens elsewhere, or with others, and no facts.
#[tactic(auto, unfolding(crate::specs::Lines::with_part))]
pub fn with_tokens(l: u64, first: usize, count: usize) -> u64
    requires { (first < 65536) × (count < 2048) }
    ensures { result ≡ with_part l first count }
{
    line_word(first, count, indent(l), addressed(l), origin(l))
}

// The tokens of a line.
pub fn line_of(tokens: &[u64], l: u64) -> &[u64]
    requires { first_of l + count_of l ≤ length tokens.now }
    ensures { result.now ≡ part_of tokens.now l }
{
    let from = first(l);
    let to = from + count(l);
    &tokens[from..to]
}
