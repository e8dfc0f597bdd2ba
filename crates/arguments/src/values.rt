// Operands that stand for a value.
ghost use Rattle.std.specs.Prelude.{◌≡◌};
ghost use Rattle.arguments.specs.Values.{is_name, value_of};

use crate::request::{Kind, Value};
use crate::word_tables::{action_in, edition_in, verb_in};
use words::{base_in, number_in};

// A name has 1 to 8 bytes.
pub(crate) fn is_name(word: &[u8]) -> bool
    ensures { result ≡ is_name word.now }
{
    (1..=8).contains(&word.len())
}

// What an operand of a kind stands for.
pub(crate) fn value_of(kind: Kind, word: &[u8]) -> Option<Value>
    ensures { result ≡ value_of kind word.now }
{
    match kind {
        Kind::Edition => edition_in(word).map(Value::Edition),
        Kind::Action => action_in(word).map(Value::Action),
        Kind::Verb => verb_in(word).map(Value::Verb),
        Kind::Base => base_in(word).map(Value::Number),
        Kind::Number => number_in(word, 10).map(Value::Number),
        Kind::File | Kind::Name => None,
    }
}
