// The shapes of lines: `is_label`, `has_kw`, `opens_or_closes`, `call_at`, `assignment`, `is_written`, `is_operator_expr` of the Rust.
//
// A line is the part of the token words that its line word says; each function says of it what the definition says of its tokens.
ghost use Rattle.std.specs.Prelude.{◌≡◌, ◌+◌, ◌≤◌, ◌<◌, length, get_or};
ghost use Rattle.reference.specs.Options.{option_of};
ghost use Rattle.reference.specs.Lists.{position, is_some};
ghost use Rattle.reference.specs.Text.{Text};
ghost use Rattle.reference.specs.Shapes.{label_tokens, is_kw, kw_in, braces_in, calls_here, call_in, begins_assignment};
ghost use Rattle.reference.specs.Shapes.{is_written, is_operator_expr};
ghost use Rattle.reference.specs.Join.{lone_number};
ghost use Rattle.lines.specs.Words as Words;
ghost use Rattle.lines.specs.Words.{start_of, len_of};
ghost use Rattle.lines.specs.Traits.{kw_text};
ghost use Rattle.lines.specs.Shapes.{symbol_from, opened, expr_words, Opens, Expression, Sides, Assigns};
ghost use Rattle.lines.specs.Texts.{Holds, Points, token_of, tokens_of};

use crate::texts::Texts;
use crate::traits::{self, Kw, has};
use crate::words;
use ground::kinds;

// Two tokens, a Symbol and `:`.
pub fn is_label(texts: &Texts<'_>, line: &[u64]) -> bool
    requires { Holds texts.now line.now }
    ensures { result ≡ label_tokens (tokens_of texts.now line.now) }
{
    let [name, colon] = line else {
        return false;
    };
    has(texts, *colon, traits::COLON) && words::kind(*name) == kinds::SYMBOL
}

// ---- keywords

// Whether a token is a Keyword with that text.
#[tactic(auto, using(crate::proofs::traits::Tests::keywords))]
pub fn is_kw(texts: &Texts<'_>, w: u64, kw: Kw) -> bool
    requires { Points texts.now w }
    ensures { result ≡ is_kw (kw_text kw) (token_of texts.now w) }
{
    has(texts, w, traits::kw_trait(kw))
}

// The place of the first Keyword with that text.
pub fn kw_at(texts: &Texts<'_>, line: &[u64], kw: Kw) -> Option<usize>
    requires { Holds texts.now line.now }
    ensures { option_of result ≡ position (is_kw (kw_text kw)) (tokens_of texts.now line.now) }
{
    line.iter().position(|w| is_kw(texts, *w, kw))
}

// Whether there is a Keyword with that text.
pub fn has_kw(texts: &Texts<'_>, line: &[u64], kw: Kw) -> bool
    requires { Holds texts.now line.now }
    ensures { result ≡ kw_in (tokens_of texts.now line.now) (kw_text kw) }
{
    line.iter().any(|w| is_kw(texts, *w, kw))
}

// The place of the first Symbol from `from` on, whatever the texts are.
pub fn symbol_from(line: &[u64], from: usize) -> Option<usize>
    ensures { (tape area : Text) → option_of result ≡ symbol_from (Words.tokens_of tape area line.now) from }
{
    (from..line.len()).find(|k| words::kind(line[*k]) == kinds::SYMBOL)
}

// ---- braces and calls

pub fn opens_or_closes(texts: &Texts<'_>, line: &[u64]) -> bool
    requires { Holds texts.now line.now }
    ensures { result ≡ braces_in (tokens_of texts.now line.now) }
{
    line.iter().any(|w| has(texts, *w, traits::BRACE))
}

// Whether a token, with the one after it, is a call mark.
#[tactic(auto, using(crate::proofs::shapes::Tests::token_tests), unfolding(reference::specs::Shapes::calls_here))]
fn is_call_mark(texts: &Texts<'_>, w: u64, next: u64) -> bool
    requires { Points texts.now w × Points texts.now next }
    ensures { result ≡ calls_here (token_of texts.now w, token_of texts.now next) }
{
    words::kind(w) == kinds::SYMBOL && has(texts, next, traits::BRACKET)
        || has(texts, w, traits::CAST)
}

// The place of the first call mark.
pub fn call_at(texts: &Texts<'_>, line: &[u64]) -> Option<usize>
    requires { Holds texts.now line.now }
    ensures { option_of result ≡ call_in (tokens_of texts.now line.now) }
{
    line.windows(2)
        .position(|pair| is_call_mark(texts, pair[0], pair[1]))
}

pub fn has_call(texts: &Texts<'_>, line: &[u64]) -> bool
    requires { Holds texts.now line.now }
    ensures { result ≡ is_some (call_in (tokens_of texts.now line.now)) }
{
    call_at(texts, line).is_some()
}

// ---- assignments

// The right side of an assignment: the place in the line of its first token (1 where text follows the ` = ` of token 1, which its first
// token then lacks), how many tokens it has, and whether the last of them lacks the `;` at its end. (A `;` that is a token by itself is
// not counted.)
// Kept: places in a line and no slice, with the line beside it in each call. A plan keeps the right side while the tables that its line
// stands in are lent to be written, so that it can hold no part of them; a struct of line and right side would be made anew at each call.
#[derive(Clone, Copy)]
pub struct Expr {
    pub first: usize,
    pub count: usize,
    pub cut: bool,
}

// The token at `at` of a line, without the ` = ` of token 1.
#[tactic(auto, using(crate::proofs::shapes::Right::opening))]
fn right_word(line: &[u64], at: usize) -> u64
    requires { (at < length line.now) × (3 ≤ len_of (get_or line.now 1 0))
        × (start_of (get_or line.now 1 0) + len_of (get_or line.now 1 0) < 65536) }
    ensures { result ≡ get_or (opened line.now) at 0 }
{
    let w = line[at];
    if at == 1 {
        words::without_first(w, 3)
    } else {
        w
    }
}

// Token k of the right side x of a line.
pub fn expr_word(line: &[u64], x: Expr, k: usize) -> u64
    requires { Expression line.now x × (k < x.count) }
    ensures { result ≡ get_or (expr_words line.now x) k 0 }
{
    let w = right_word(line, x.first + k);
    if x.cut && k + 1 == x.count {
        words::without_last(w)
    } else {
        w
    }
}

// Whether two tokens are a Register and a Punct that begins with ` = `.
#[tactic(auto, using(crate::proofs::shapes::Tests::token_tests), unfolding(reference::specs::Shapes::begins_assignment))]
fn begins_assignment(texts: &Texts<'_>, lhs: u64, eq: u64) -> bool
    requires { Points texts.now eq }
    ensures { result ≡ begins_assignment (token_of texts.now lhs) (token_of texts.now eq) }
{
    words::kind(lhs) == kinds::REGISTER && has(texts, eq, traits::ASSIGN)
}

// The right side of a line whose second token begins with ` = `, from the token at `first` on.
fn right_side(texts: &Texts<'_>, line: &[u64], first: usize) -> Option<Expr>
    requires { Opens texts.now.tape.now texts.now.area.now line.now × (1 ≤ first) × (first ≤ 2) }
    ensures { Sides texts.now.tape.now texts.now.area.now line.now first result }
{
    let n = line.len();
    if n <= first {
        return None;
    }
    let last = right_word(line, n - 1);
    if !has(texts, last, traits::SEMICOLON) {
        return None;
    }
    if words::len(last) != 1 {
        return Some(Expr {
            first,
            count: n - first,
            cut: true,
        });
    }
    if n == first + 1 {
        return None;
    }
    Some(Expr {
        first,
        count: n - first - 1,
        cut: false,
    })
}

// `reg = expr;`: its right side; token 0 is the register. Another assignment is none.
pub fn assignment(texts: &Texts<'_>, line: &[u64]) -> Option<Expr>
    requires { Holds texts.now line.now }
    ensures { Assigns texts.now.tape.now texts.now.area.now line.now result }
{
    let [lhs, eq, ..] = line else {
        return None;
    };
    if !begins_assignment(texts, *lhs, *eq) {
        return None;
    }
    right_side(texts, line, if words::len(*eq) == 3 { 2 } else { 1 })
}

// Whether the right side x of a line is a Number alone, whatever the texts are.
pub fn is_lone_number(line: &[u64], x: Expr) -> bool
    requires { Expression line.now x }
    ensures { (tape area : Text) → result ≡ lone_number (Words.tokens_of tape area (expr_words line.now x)) }
{
    x.count == 1 && words::kind(expr_word(line, x, 0)) == kinds::NUMBER
}

// ---- in a line

// Whether the token at `pos` is the target of an assignment (`x = ..`, `x += ..`, `x++`).
pub(crate) fn is_written(texts: &Texts<'_>, line: &[u64], pos: usize) -> bool
    requires { Holds texts.now line.now × (pos < length line.now) }
    ensures { result ≡ is_written (tokens_of texts.now line.now) pos }
{
    let Some(next) = line.get(pos + 1) else {
        return false;
    };
    has(texts, *next, traits::WRITES)
}

// Whether the right side x of a line has an operator among its tokens, of which there are several.
pub fn is_operator_expr(texts: &Texts<'_>, line: &[u64], x: Expr) -> bool
    requires { Holds texts.now line.now × Expression line.now x }
    ensures { result ≡ is_operator_expr (tokens_of texts.now (expr_words line.now x)) }
{
    1 < x.count && (0..x.count).any(|k| has(texts, expr_word(line, x, k), traits::OPERATOR))
}
