// What a walk along the lines asks of one line by itself, kept in a table so that it is read once: its form as one of a few, its braces
// without a partner, whether it is a case, whether control may come to it from elsewhere, whether it is not looked into.
#![tactic(auto, using(laws::proofs::Std::tests_of_std))]

ghost use Rattle.std.specs.Prelude.{◌≡◌, ◌<◌, length};
ghost use Rattle.reference.specs.Options.{option_of};
ghost use Rattle.reference.specs.Lists.{any};
ghost use Rattle.cautions.specs.Forms.{is_case, is_entered};
ghost use Rattle.flow.specs.LineForms.{Classed, Formed, steering, is_entering, has_entry};
ghost use Rattle.lines.specs.Texts.{Holds, Points, token_of, tokens_of};

use crate::forms::{self, is_case_word, is_control_word};
use crate::opaque;
use ground::kinds;
use lines::texts::Texts;
use lines::words;

// The forms that say which lines come next; every other one is `Other`.
#[derive(Clone, Copy, PartialEq, Eq)]
pub enum Form {
    Empty, // no statement and no label
    Statement, // `;`
    Label, // `:`
    Opening, // `{`
    Block, // `{}`
    Guarded, // `if;`
    Do, // `do{`
    Goto, // `goto;`
    IfGoto, // `ifgoto;`
    Return, // `return;`
    IfReturn, // `ifreturn;`
    While, // `while};`
    Closing, // `}`
    If, // `if{`
    ElseIf, // `elseif}{`
    Else, // `else}{`
    Switch, // `switch{`
    Other,
}

#[derive(Clone, Copy)]
pub struct LineForm {
    pub form: Form,
    pub closes: usize,
    pub opens: usize,
    pub is_case: bool,
    pub is_entered: bool,
    pub is_opaque: bool,
}

// A text as a form.
#[tactic(auto, using(crate::proofs::Classes::classed_as))]
fn classed(s: &[u8]) -> Form
    ensures { Classed s.now result }
{
    if text::same(b";", s) {
        return Form::Statement;
    }
    if text::same(b"", s) {
        return Form::Empty;
    }
    if text::same(b":", s) {
        return Form::Label;
    }
    if text::same(b"{", s) {
        return Form::Opening;
    }
    if text::same(b"{}", s) {
        return Form::Block;
    }
    if text::same(b"if;", s) {
        return Form::Guarded;
    }
    if text::same(b"do{", s) {
        return Form::Do;
    }
    if text::same(b"goto;", s) {
        return Form::Goto;
    }
    if text::same(b"ifgoto;", s) {
        return Form::IfGoto;
    }
    if text::same(b"return;", s) {
        return Form::Return;
    }
    if text::same(b"ifreturn;", s) {
        return Form::IfReturn;
    }
    if text::same(b"while};", s) {
        return Form::While;
    }
    if text::same(b"}", s) {
        return Form::Closing;
    }
    if text::same(b"if{", s) {
        return Form::If;
    }
    if text::same(b"elseif}{", s) {
        return Form::ElseIf;
    }
    if text::same(b"else}{", s) {
        return Form::Else;
    }
    if text::same(b"switch{", s) {
        return Form::Switch;
    }
    Form::Other
}

// ---- cases

// Whether a token is `case` or `default`, if it is a word that tells.
#[tactic(auto, using(crate::proofs::Classes::steers))]
fn steering(texts: &Texts<'_>, w: u64) -> Option<bool>
    requires { Points texts.now w }
    ensures { option_of result ≡ steering (token_of texts.now w) }
{
    if words::kind(w) != kinds::KEYWORD {
        return None;
    }
    let s = words::text(texts, w);
    if is_case_word(s) {
        return Some(true);
    }
    if is_control_word(s) {
        return Some(false);
    }
    None
}

// Whether the first such word is `case` or `default`.
fn is_case(texts: &Texts<'_>, line: &[u64]) -> bool
    requires { Holds texts.now line.now }
    ensures { result ≡ is_case (tokens_of texts.now line.now) }
{
    for w in line {
        match steering(texts, *w) {
            Some(is_case) => return is_case,
            None => {}
        }
    }
    false
}

// ---- entries

// Whether a token has a `:` or a `}`.
#[tactic(auto, using(lines::proofs::shapes::Tests::token_tests), unfolding(crate::specs::LineForms::is_entering))]
fn is_entering(texts: &Texts<'_>, w: u64) -> bool
    requires { Points texts.now w }
    ensures { result ≡ is_entering (token_of texts.now w) }
{
    words::kind(w) == kinds::PUNCT && has_entry(words::text(texts, w))
}

#[tactic(auto, using(laws::proofs::Std::tests_of_std), unfolding(crate::specs::LineForms::has_entry))]
fn has_entry(s: &[u8]) -> bool
    ensures { result ≡ has_entry s.now }
{
    text::has_byte(s, b':') || text::has_byte(s, b'}')
}

// Whether control may come to a line from elsewhere than from the line above.
fn is_entered(texts: &Texts<'_>, line: &[u64]) -> bool
    requires { Holds texts.now line.now }
    ensures { result ≡ is_entered (tokens_of texts.now line.now) }
{
    line.iter().any(|w| is_entering(texts, *w))
}

// ---- a line

// What is asked of a line.
pub fn line_form(texts: &Texts<'_>, line: &[u64]) -> LineForm
    requires { Holds texts.now line.now × (length line.now < 65536) }
    ensures { Formed (tokens_of texts.now line.now) result }
{
    let f = forms::form_of(texts, line);
    let front = &f.bytes[..f.len];
    LineForm {
        form: classed(front),
        closes: f.closes,
        opens: f.opens,
        is_case: is_case(texts, line),
        is_entered: is_entered(texts, line),
        is_opaque: opaque::is_opaque(texts, line),
    }
}
