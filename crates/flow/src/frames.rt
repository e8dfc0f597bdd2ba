// Brackets of a run of tokens, and what stands outside them. The definitions make a text of the run, its frame: the texts of the Puncts,
// and a `w` for each other token. Here a scan goes over that text byte by byte as the tokens come, and keeps no buffer.
#![tactic(auto, using(laws::proofs::Std::tests_of_std))]

ghost use Rattle.std.specs.Prelude.{ℕ, ◌≡◌, ◌+◌, ◌≤◌, ◌<◌, ◌∷◌, ◌++◌, [], length};
ghost use Rattle.reference.specs.Control.{◌and◌};
ghost use Rattle.reference.specs.Listing.{is, Keyword};
ghost use Rattle.reference.specs.Text.{Text, bytes, starts_with};
ghost use Rattle.cautions.specs.Texts.{deeper, frame, loose};
ghost use Rattle.cautions.specs.Uses.{is_truth};
ghost use Rattle.flow.specs.Frames.{framed_token, seen_of, framed, Below, OuterByte};
ghost use Rattle.lines.specs.Shapes.{expr_words, Expression};
ghost use Rattle.lines.specs.Texts.{Holds, Points, text_of, token_of, tokens_of};

use crate::comparing::{self, Comparing, NOT_COMPARING};
use crate::marks::{self, Marking, NO_MARKS};
use ground::kinds;
use lines::shapes::{self, Expr};
use lines::texts::Texts;
use lines::words;

// What is asked of a frame: how deep it ends; whether nothing but tokens stands outside brackets; whether an operator or a comma does,
// unary ones in front left out; whether a comma does; whether a comparison does, or a `!` in front; how many changes do.
#[derive(Clone, Copy)]
pub struct Frame {
    pub depth: usize,
    pub plain: bool,
    pub loose: bool,
    pub comma: bool,
    pub truth: bool,
    pub marks: usize,
}

// The same of the part that was read, and whether more than unary operators stood outside brackets.
#[derive(Clone, Copy)]
pub(crate) struct FrameScan {
    pub depth: usize,
    pub begun: bool,
    pub plain: bool,
    pub loose: bool,
    pub comma: bool,
    pub comparing: Comparing,
    pub marking: Marking,
}

// Nothing read.
const NO_FRAME: FrameScan = FrameScan {
    depth: 0,
    begun: false,
    plain: true,
    loose: false,
    comma: false,
    comparing: NOT_COMPARING,
    marking: NO_MARKS,
};

// The depth behind a byte.
#[tactic(auto, using(laws::proofs::Std::tests_of_std), unfolding(cautions::specs::Texts::deeper))]
fn deeper(c: u8, d: usize) -> usize
    requires { d < 4611686018427387904 }
    ensures is { result ≡ deeper c d }
    ensures few { result ≤ d + 1 }
{
    if c == b'(' {
        d + 1
    } else if c == b')' && 0 < d {
        d - 1
    } else {
        d
    }
}

// A byte outside brackets, which is none.
fn with_outer(f: FrameScan, b: u8) -> FrameScan
    requires { Below f 4294967296 }
    ensures { OuterByte f b result }
{
    let begins = f.begun || !text::has_byte(b"-~!&*", b);
    FrameScan {
        depth: f.depth,
        begun: begins,
        plain: f.plain && b == b'w',
        loose: f.loose || begins && b != b'w',
        comma: f.comma || b == b',',
        comparing: comparing::with_byte(f.comparing, b),
        marking: marks::with_byte(f.marking, b),
    }
}

// One byte more.
fn with_byte(f: FrameScan, b: u8) -> FrameScan
    requires { Below f 4294967296 }
    ensures is { (s : Text) → framed result s ≡ framed f (b ∷ s) }
    ensures few { (n : ℕ) → Below f n → Below result (n + 1) }
{
    if f.depth == 0 && !text::has_byte(b"()", b) {
        with_outer(f, b)
    } else {
        FrameScan {
            depth: deeper(b, f.depth),
            ..f
        }
    }
}

// A text more.
fn with_text(f: FrameScan, s: &[u8]) -> FrameScan
    requires { Below f 4294901760 × (length s.now < 65536) }
    ensures is { (more : Text) → framed result more ≡ framed f (s.now ++ more) }
    ensures few { (n : ℕ) → Below f n → Below result (n + length s.now) }
{
    let mut g = f;
    for b in s {
        g = with_byte(g, *b);
    }
    g
}

// Whether a token is a Keyword that casts to a function that is called: one bracket of its text stays open.
#[tactic(auto, using(lines::proofs::shapes::Tests::token_tests))]
fn is_call_cast(texts: &Texts<'_>, w: u64) -> bool
    requires { Points texts.now w }
    ensures { result ≡ (is Keyword (token_of texts.now w) and starts_with (text_of texts.now w) (bytes "((void")) }
{
    words::kind(w) == kinds::KEYWORD && text::starts(words::text(texts, w), b"((void")
}

// One token more.
fn with_token(f: FrameScan, texts: &Texts<'_>, w: u64) -> FrameScan
    requires { Below f 4294901760 × Points texts.now w }
    ensures is { (more : Text) → framed result more ≡ framed f (framed_token (token_of texts.now w) ++ more) }
    ensures few { (n : ℕ) → Below f n → Below result (n + 65535) }
{
    if words::kind(w) == kinds::PUNCT {
        with_text(f, words::text(texts, w))
    } else if is_call_cast(texts, w) {
        with_byte(f, b'(')
    } else {
        with_byte(f, b'w')
    }
}

// What a frame is found to be, now that nothing follows.
fn ended(f: FrameScan) -> Frame
    requires { Below f 4294967296 }
    ensures { result ≡ framed f [] }
{
    Frame {
        depth: f.depth,
        plain: f.plain,
        loose: f.loose,
        comma: f.comma,
        truth: comparing::total(f.comparing),
        marks: marks::total(f.marking),
    }
}

// The frame of a run of tokens.
pub fn frame_of(texts: &Texts<'_>, ws: &[u64]) -> Frame
    requires { Holds texts.now ws.now × (length ws.now < 65536) }
    ensures { result ≡ seen_of (frame (tokens_of texts.now ws.now)) }
{
    let mut f = NO_FRAME;
    for w in ws {
        f = with_token(f, texts, *w);
    }
    ended(f)
}

// The frame of the right side x of a line.
pub fn frame_of_expr(texts: &Texts<'_>, line: &[u64], x: Expr) -> Frame
    requires { Holds texts.now line.now × Expression line.now x × (length line.now < 65536) }
    ensures { result ≡ seen_of (frame (tokens_of texts.now (expr_words line.now x))) }
{
    let mut f = NO_FRAME;
    for k in 0..x.count {
        f = with_token(f, texts, shapes::expr_word(line, x, k));
    }
    ended(f)
}

// Whether a run of tokens has an operator or a comma outside brackets, unary ones in front left out.
#[tactic(auto, unfolding(cautions::specs::Texts::loose))]
pub fn is_loose(texts: &Texts<'_>, ws: &[u64]) -> bool
    requires { Holds texts.now ws.now × (length ws.now < 65536) }
    ensures { result ≡ loose (tokens_of texts.now ws.now) }
{
    frame_of(texts, ws).loose
}

// The same of the right side x of a line.
#[tactic(auto, unfolding(cautions::specs::Texts::loose))]
pub fn is_loose_expr(texts: &Texts<'_>, line: &[u64], x: Expr) -> bool
    requires { Holds texts.now line.now × Expression line.now x × (length line.now < 65536) }
    ensures { result ≡ loose (tokens_of texts.now (expr_words line.now x)) }
{
    frame_of_expr(texts, line, x).loose
}

// Whether a run of tokens is 0 or 1: a comparison, or `!` in front.
#[tactic(auto, unfolding(cautions::specs::Uses::is_truth))]
pub fn is_truth(texts: &Texts<'_>, ws: &[u64]) -> bool
    requires { Holds texts.now ws.now × (length ws.now < 65536) }
    ensures { result ≡ is_truth (tokens_of texts.now ws.now) }
{
    frame_of(texts, ws).truth
}

// The same of the right side x of a line.
#[tactic(auto, unfolding(cautions::specs::Uses::is_truth))]
pub fn is_truth_expr(texts: &Texts<'_>, line: &[u64], x: Expr) -> bool
    requires { Holds texts.now line.now × Expression line.now x × (length line.now < 65536) }
    ensures { result ≡ is_truth (tokens_of texts.now (expr_words line.now x)) }
{
    frame_of_expr(texts, line, x).truth
}
