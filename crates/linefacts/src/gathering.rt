// The facts of lines, made from their tokens once, before the rounds.
//
// Kept: `gather_facts` takes the texts, the tokens and the lines beside each other: a `Listing` lends its lines to be read, and here they
// are written. A struct that lends them to be written is no plainer: it would be made for this one function, and taken apart at once, since
// each turn of the loop reads the texts and the tokens and writes a line.
ghost use Rattle.std.specs.Prelude.{◌≡◌, ℕ, ◌<◌};
ghost use Rattle.reference.specs.Lists.{any, is_some};
ghost use Rattle.reference.specs.Shapes.{call_in};
ghost use Rattle.lines.specs.Words.{kind_of};
ghost use Rattle.lines.specs.Lines.{Listed};
ghost use Rattle.lines.specs.Facts.{is_control, Tells};
ghost use Rattle.linefacts.specs.Gathering.{seen_by, Bits, CallFacts, Noted, AllNoted};
ghost use Rattle.lines.specs.Texts.{Holds, Lined, Points, token_of, tokens_of};

use crate::transparent::{CALLING, NO_CALL};
use ground::kinds;
use lines::texts::Texts;
use lines::traits::{self, has};
use lines::{shapes, words};

// What a line may have, in a number of its own: a bit that is set says what there may be, and `facts_of` turns the first sixteen over.
// Bit 15 a token of control flow, bit 16 a Symbol (which is no fact, and goes no further); all families and control flow.
const CONTROL: u64 = 32768;

const SYMBOLS: u64 = 65536;

const ALL: u64 = 65535;

// Whether a token may make its line a jump, a label, the edge of a block or a call of an address.
#[tactic(auto, using(crate::proofs::Tokens::control_keyword, crate::proofs::Tokens::control_brace, crate::proofs::Tokens::control_colon))]
fn is_control(texts: &Texts<'_>, w: u64) -> bool
    requires { Points texts.now w }
    ensures { result ≡ is_control (token_of texts.now w) }
{
    words::kind(w) == kinds::KEYWORD || has(texts, w, traits::BRACE) || has(texts, w, traits::COLON)
}

// The bit of a Register's family, as its code says; one without a code may be anything.
fn family_bits(texts: &Texts<'_>, w: u64) -> u64
    requires { Points texts.now w × (kind_of w ≡ 1) }
    ensures { Bits result (λ (i : ℕ). seen_by i (token_of texts.now w)) }
{
    match words::code(w) {
        Some(c) => 1u64 << (c / 4 - 1),
        None => ALL,
    }
}

// The bits of what a token is.
#[tactic(auto, using(crate::proofs::Tokens::control_bits, crate::proofs::Tokens::symbol_bits, crate::proofs::Tokens::no_bits))]
fn token_bits(texts: &Texts<'_>, w: u64) -> u64
    requires { Points texts.now w }
    ensures { Bits result (λ (i : ℕ). seen_by i (token_of texts.now w)) }
{
    let kind = words::kind(w);
    if kind == kinds::REGISTER {
        return family_bits(texts, w);
    }
    if is_control(texts, w) {
        return CONTROL + SYMBOLS; // it may be a Symbol too
    }
    if kind == kinds::SYMBOL {
        return SYMBOLS;
    }
    0
}

// The bits of what a line has.
fn bits_of(texts: &Texts<'_>, line: &[u64]) -> u64
    requires { Holds texts.now line.now }
    ensures { Bits result (λ (i : ℕ). any (seen_by i) (tokens_of texts.now line.now)) }
{
    // Kept: a loop: the kit's lemma of `fold` (`fold_from_yields_List`) is of a closure that computes a function of the total and the item,
    // and `token_bits` does not promise which number it answers, only what each bit tells that is not set.
    let mut has = 0;
    for w in line {
        has |= token_bits(texts, *w);
    }
    has
}

// The facts of whether a line calls, from the bits of what it has. Where there is control flow, no scan asks.
fn call_facts(texts: &Texts<'_>, line: &[u64], has: u64) -> u64
    requires { Holds texts.now line.now
        × Bits has (λ (i : ℕ). any (seen_by i) (tokens_of texts.now line.now)) }
    ensures { CallFacts result (is_some (call_in (tokens_of texts.now line.now))) }
{
    if CONTROL <= has % 65536 {
        return 0;
    }
    if has < SYMBOLS {
        return 1 << NO_CALL;
    }
    if shapes::has_call(texts, line) {
        return 1 << CALLING;
    }
    1 << NO_CALL
}

// The facts of a line: the bits of what it has turned over, so that a bit that is set says what is not; and whether it calls.
#[tactic(auto, using(crate::proofs::Making::made_small, crate::proofs::Making::made_tells))]
fn facts_of(texts: &Texts<'_>, line: &[u64]) -> u64
    requires { Holds texts.now line.now }
    ensures { (result < 4194304) × Tells 1 result (tokens_of texts.now line.now) }
{
    let has = bits_of(texts, line);
    (has % 65536 ^ ALL) + call_facts(texts, line, has)
}

// The line with its facts.
fn with_its_facts(texts: &Texts<'_>, tokens: &[u64], l: u64) -> u64
    requires { Lined texts.now tokens.now l }
    ensures { Noted texts.now.tape.now texts.now.area.now tokens.now l result }
{
    words::with_facts(l, facts_of(texts, words::line_of(tokens, l)))
}

// Notes the facts of each line in its word.
pub fn gather_facts(texts: &Texts<'_>, tokens: &[u64], lines: &mut [u64])
    requires { Listed texts.now.tape.now texts.now.area.now tokens.now lines.old }
    ensures { AllNoted texts.now.tape.now texts.now.area.now tokens.now lines.old lines.new }
{
    for l in lines.iter_mut() {
        *l = with_its_facts(texts, tokens, *l);
    }
}
