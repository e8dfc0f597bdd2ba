// A formula reckoned in pairs, in one pass over its lines. The table `values` has a pair for each token of the listing: what a register is
// worth where the next line is read, or a number. An assignment changes the pairs of all tokens of its register.
// Kept: that the table has room for the formula's tokens (`HasRoom`) is asked in each contract. Formula and table in one struct would be no
// plainer: four of the six functions write the table, so the struct would be lent to be written, and each of the four would have to promise
// besides that the formula in it is as before.
// Kept: `Holds`, `Begun` and `Profiled` are asked in contracts, as crate lines has it of its own (texts.rt): `Holds` and `Profiled` are
// facts of a `Listing`'s words, and `Begun` of a line word and its listing; a struct of the two would be made anew at each turn of `run`.
ghost use Rattle.std.specs.Prelude.{◌≡◌, List, ◌≤◌, length, drop, ℤ, true};
ghost use Rattle.std.proofs.Math.Option.{some};
ghost use Rattle.reference.specs.Lists.{is_some};
ghost use Rattle.reference.specs.Text.{Text};
ghost use Rattle.reference.specs.Numbers.{parse_c_number};
ghost use Rattle.reference.specs.Evaluators.{of_integer, lexemes, evaluate};
ghost use Rattle.reference.specs.Straight.{execute};
ghost use Rattle.lines.specs.Lines.{Reading};
ghost use Rattle.lines.specs.Texts as Lent;
ghost use Rattle.lines.specs.Texts.{token_of};
ghost use Rattle.formula.specs.Values as Values;
ghost use Rattle.formula.specs.Values.{numbers_of, value_of};
ghost use Rattle.start.specs.Start.{Entry, entries};
ghost use Rattle.start.specs.Pairs.{affine, start_pairs, returned_pair};
ghost use Rattle.start.specs.Reckoning.{Prices, Priced, same_register, Overwritten};
ghost use Rattle.start.specs.Reckoning.{Assigned, Returned};
ghost use Rattle.start.specs.Formulas.{token_in, tokens_in, line_in, listing_in, Points, Holds, Begun, Profiled, IsPriced, HasRoom};

use crate::listed::value_of;
use crate::starts::Starts;
use formula::evaluators::{Pair, evaluate};
use formula::line::Line;
use ground::kinds;
use lines::texts::{Listing, Texts};
use lines::words;
use numbers::parse_c_number;

// ---- at the start

// What a register starts with: the chosen one with 1 · v + 0, any other with its listed value.
fn start_pair(starts: &Starts<'_>, name: &[u8]) -> Pair
    ensures { (es : List Entry) → entries starts.now.list.now ≡ some es
        → numbers_of result ≡ start_pairs starts.now.chosen.now es name.now }
{
    if text::same(name, starts.chosen) {
        return Pair {
            multiplier: 1,
            constant: 0,
        };
    }
    Pair {
        multiplier: 0,
        constant: value_of(starts.list, name),
    }
}

// The value of a number modulo 2^64; any of one that is not read.
fn number_value(s: &[u8]) -> u64
    ensures { (z : ℤ) → parse_c_number s.now ≡ some z → result ≡ of_integer z }
{
    parse_c_number(s).unwrap_or(0).cast_unsigned()
}

// What a token is worth at the start.
fn token_pair(texts: &Texts<'_>, w: u64, starts: &Starts<'_>) -> Pair
    requires { Lent.Points texts.now w }
    ensures { (es : List Entry) → entries starts.now.list.now ≡ some es
        → Prices (start_pairs starts.now.chosen.now es) (token_of texts.now w) (numbers_of result) }
{
    let s = words::text(texts, w);
    if words::kind(w) == kinds::NUMBER {
        return Pair {
            multiplier: 0,
            constant: number_value(s),
        };
    }
    start_pair(starts, s)
}

// Fills the table with what each token is worth at the start.
// Kept: each pair by its index, here and in `overwrite`. `iter_mut().zip` was tried of such a loop in crate tables (`gather`), and the
// proof did not close: once the borrow of `iter_mut` is over, nothing is known there of the elements but how many they are.
fn fill(formula: &Listing<'_>, starts: &Starts<'_>, values: &mut [Pair])
    requires { Holds formula.now × HasRoom formula.now values.old }
    ensures { (es : List Entry) → entries starts.now.list.now ≡ some es → Priced (start_pairs starts.now.chosen.now es)
        (tokens_in formula.now) values.new }
{
    for (k, &w) in formula.tokens.iter().enumerate() {
        values[k] = token_pair(&formula.texts, w, starts);
    }
}

// ---- an assignment

// Whether a token is the register that another one is.
fn is_same(texts: &Texts<'_>, w: u64, target: u64) -> bool
    requires { Lent.Points texts.now w × Lent.Points texts.now target }
    ensures { result ≡ same_register (token_of texts.now target) (token_of texts.now w) }
{
    words::kind(w) == kinds::REGISTER
        && text::same(words::text(texts, w), words::text(texts, target))
}

// Gives every token of a register the pair p.
fn overwrite(formula: &Listing<'_>, target: u64, p: Pair, values: &mut [Pair])
    requires { Holds formula.now × Points formula.now target × HasRoom formula.now values.old }
    ensures { Overwritten (token_in formula.now target) (numbers_of p) (tokens_in formula.now) values.old values.new }
{
    for (k, &w) in formula.tokens.iter().enumerate() {
        if is_same(&formula.texts, w, target) {
            values[k] = p;
        }
    }
}

// ---- a line

// What the tokens behind the first one of a line are worth.
fn behind_first(formula: &Listing<'_>, values: &[Pair], l: u64, before: &[u8]) -> Option<Pair>
    requires { Begun formula.now l × HasRoom formula.now values.now × IsPriced formula.now values.now }
    ensures { (σ : Text → Values.Pair) → Priced σ (tokens_in formula.now) values.now → value_of result
        ≡ evaluate affine σ before.now (lexemes (drop 1 (line_in formula.now l))) }
{
    let first = words::first(l);
    let from = first + 1;
    let to = first + words::count(l);
    let line = Line {
        texts: formula.texts,
        words: &formula.tokens[from..to],
    };
    evaluate(&line, &values[from..to], before)
}

// Reads a line that assigns, and changes the pairs of its register.
fn assign_line(formula: &Listing<'_>, l: u64, values: &mut [Pair])
    requires { Holds formula.now × Begun formula.now l × HasRoom formula.now values.old × IsPriced formula.now values.old }
    ensures { Assigned (line_in formula.now l) (tokens_in formula.now) values.old values.new }
{
    if let Some(p) = behind_first(formula, values, l, b" = ") {
        overwrite(formula, formula.tokens[words::first(l)], p, values);
    }
}

// What a line that returns is worth.
fn returned(formula: &Listing<'_>, values: &[Pair], l: u64) -> Pair
    requires { Begun formula.now l × HasRoom formula.now values.now × IsPriced formula.now values.now }
    ensures { Returned (line_in formula.now l) (tokens_in formula.now) values.now (numbers_of result) }
{
    behind_first(formula, values, l, b" ").unwrap_or(Pair::ZERO)
}

// ---- the whole formula

// What a listing in the profile returns, the table having what each token is worth at the start.
fn run(formula: &Listing<'_>, values: &mut [Pair]) -> Pair
    requires { Profiled formula.now × HasRoom formula.now values.old × IsPriced formula.now values.old }
    ensures { (reading : Reading) (σ : Text → Values.Pair) → Priced σ (tokens_in formula.now) values.old
        → execute affine σ (listing_in formula.now reading) ≡ some (numbers_of result) }
{
    let last = formula.lines.len() - 1;
    for &line in &formula.lines[..last] {
        assign_line(formula, line, values);
    }
    returned(formula, values, formula.lines[last])
}

// The pair of a formula: what it returns where the chosen register starts with v, for every v.
pub fn reckon(formula: &Listing<'_>, starts: &Starts<'_>) -> Pair
    requires { Profiled formula.now × (length formula.now.tokens.now ≤ 1024) × (is_some (entries starts.now.list.now) ≡ true) }
    ensures { (reading : Reading) (es : List Entry) → entries starts.now.list.now ≡ some es
        → returned_pair starts.now.chosen.now es (listing_in formula.now reading) ≡ some (numbers_of result) }
{
    let mut values = [Pair::ZERO; 1024];
    fill(formula, starts, &mut values);
    run(formula, &mut values)
}
