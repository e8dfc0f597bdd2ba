// 12 and 13, asked of each command from the left once the tape is read. Nothing is written.
ghost use Rattle.std.specs.Prelude.{◌≡◌};
ghost use Rattle.reference.specs.Options.{option_of};
ghost use Rattle.reference.specs.Lists.{any};
ghost use Rattle.reference.specs.Text.{◌≟◌, has};
ghost use Rattle.reference.specs.Listing.{token};
ghost use Rattle.tape.specs.Questions.{AcceptedTape};
ghost use Rattle.tape.specs.Walk.{event_shown};
ghost use Rattle.editions.specs.Numbers.{begins_binary, is_newer, has_no_older, new_keywords};
ghost use Rattle.editions.specs.Conversion.{of_command};
ghost use Rattle.editions.specs.Asking.{keywords_1, keywords_2, keywords_3, earns, leftmost};

use ground::kinds::{NUMBER, SYMBOL};
use numbers::{begins_binary, read_number};
use tape::walk::{Commands, Event};

// ---- one text

// Whether a Number begins as a binary constant, after at most one minus.
fn is_binary(s: &[u8]) -> bool
    ensures { result ≡ begins_binary s.now }
{
    match s.strip_prefix(b"-") {
        Some(rest) => begins_binary(rest),
        None => begins_binary(s),
    }
}

fn is_newer(s: &[u8]) -> bool
    ensures { result ≡ is_newer s.now }
{
    is_binary(s) || s.contains(&b'\'')
}

// Whether a Number earns 13.
fn has_no_older(s: &[u8]) -> bool
    ensures { result ≡ has_no_older s.now }
{
    is_newer(s) && read_number(1, s).is_none()
}

fn is_one_of(words: &[&[u8]], s: &[u8]) -> bool
    ensures { result ≡ any (λ word. word.now ≟ s.now) words.now }
{
    words.contains(&s)
}

// Whether a Symbol earns 12.
fn is_new_keyword(s: &[u8]) -> bool
    ensures { result ≡ has new_keywords s.now }
{
    let words: [&[u8]; 11] = [
        b"alignas",
        b"alignof",
        b"bool",
        b"constexpr",
        b"false",
        b"nullptr",
        b"static_assert",
        b"thread_local",
        b"true",
        b"typeof",
        b"typeof_unqual",
    ];
    is_one_of(&words, s)
}

// ---- one command

// Whether a token earns 12 going up, or 13 going down.
fn token_earns<const UP: bool>(kind: u64, s: &[u8]) -> bool
    ensures { result ≡ earns UP (token kind s.now) }
{
    if UP {
        kind == SYMBOL && is_new_keyword(s)
    } else {
        kind == NUMBER && has_no_older(s)
    }
}

fn command_earns<const UP: bool>(event: &Event<'_>) -> bool
    ensures { result ≡ of_command (earns UP) (event_shown event.now) }
{
    match *event {
        Event::Token { kind, text } => token_earns::<UP>(kind, text),
        _ => false,
    }
}

// ---- the whole tape

// The leftmost command that earns 12 going up, or 13 going down.
pub fn first_place<const UP: bool>(tape: &[u8]) -> Option<usize>
    requires { AcceptedTape tape.now }
    ensures { option_of result ≡ leftmost UP tape.now }
{
    for c in Commands::<false>::new(tape) {
        if command_earns::<UP>(&c.event) {
            return Some(c.at);
        }
    }
    None
}
