// The lines of a tape and the tokens of a line, one after the other. The tape may be any bytes: what it holds is crate tape's `held`.
ghost use Rattle.std.specs.Prelude.{◌≡◌, MatchOption, true, false};
ghost use Rattle.std.specs.Iterator.{YieldsFirstBy, item_count};
ghost use Rattle.reference.specs.Lists.{get};
ghost use Rattle.reference.specs.Control.{◌and◌};
ghost use Rattle.reference.specs.Text.{bytes, ◌≟◌};
ghost use Rattle.reference.specs.Listing.{is, Symbol};
ghost use Rattle.reference.specs.Shapes.{label_tokens};
ghost use Rattle.reference.specs.Options.{option_of};
ghost use Rattle.std.proofs.Math.Option.{none, some};
ghost use Rattle.reference.specs.Join.{text_or_empty};
ghost use Rattle.tape.specs.Held.{commands, held, tokens_of};
ghost use Rattle.tallies.specs.Lines.{token_shown, tokens_left, line_shown, lines_left, marks_shown, marks_left};

use ground::kinds::SYMBOL;
use tape::walk::{Commands, Event};
use text::same;

// A token: its kind and its text.
#[derive(Clone, Copy, Debug)]
pub struct Token<'a> {
    pub kind: u64,
    pub text: &'a [u8],
}

// Whether two tokens are a label's: a Symbol and a `:`.
fn are_label(name: Token, colon: Token) -> bool
    ensures { result ≡ ((colon.entry.text.now ≟ bytes ":") and is Symbol (token_shown name.entry)) }
{
    same(colon.text, b":") && name.kind == SYMBOL
}

// An iterator over the tokens of a line.
#[derive(Clone, Copy, Debug)]
pub struct Tokens<'a> {
    commands: Commands<'a, false>,
}

impl<'a> Iterator for Tokens<'a> {
    type Item = Token<'a>;

    ghost next_gives = { YieldsFirstBy token_shown tokens_left };

    ghost remaining = { item_count tokens_left };

    fn next(&mut self) -> Option<Token<'a>> {
        while let Some(c) = self.commands.next() {
            match c.event {
                Event::Line { .. } => break,
                Event::Marks { .. } => {}
                Event::Token { kind, text } => return Some(Token { kind, text }),
            }
        }
        self.commands = Commands::new(&[]);
        None
    }
}

// A line: its address, its indent, and what follows them up to the next line.
#[derive(Clone, Copy, Debug)]
pub struct Line<'a> {
    pub address: Option<u64>,
    pub indent: u64,
    body: Commands<'a, false>,
}

impl<'a> Line<'a> {
    pub fn tokens(&self) -> Tokens<'a>
        ensures { tokens_left result ≡ (line_shown self.now).tokens }
    {
        Tokens {
            commands: self.body,
        }
    }

    // The bytes that begin with its tokens.
    pub fn as_bytes(&self) -> &'a [u8]
        ensures { tokens_of (commands result.now) ≡ (line_shown self.now).tokens }
    {
        self.body.as_bytes()
    }

    // Its marks, the lowest address and the highest.
    pub fn marks(&self) -> Option<(u64, u64)>
        ensures { marks_shown result ≡ marks_left self.now }
    {
        let mut marks = None;
        for c in self.body {
            match c.event {
                Event::Line { .. } => break,
                Event::Marks { low, high } => marks = Some((low, high)),
                Event::Token { .. } => {}
            }
        }
        marks
    }

    // The name of a label, if the line is one: a Symbol and a `:`, and no more.
    pub fn label(&self) -> Option<&'a [u8]>
        ensures { MatchOption result (label_tokens (line_shown self.now).tokens ≡ false)
            (λ s. (label_tokens (line_shown self.now).tokens ≡ true) × (text_or_empty (get (line_shown self.now).tokens 0) ≡ s.now)) }
    {
        let mut tokens = self.tokens();
        let name = tokens.next()?;
        let colon = tokens.next()?;
        if tokens.next().is_none() && are_label(name, colon) {
            Some(name.text)
        } else {
            None
        }
    }
}

// An iterator over the lines of a tape.
#[derive(Clone, Copy, Debug)]
pub struct Lines<'a> {
    commands: Commands<'a, false>,
}

impl<'a> Lines<'a> {
    pub fn new(tape: &'a [u8]) -> Lines<'a>
        ensures { lines_left result ≡ held tape.entry.now }
    {
        Lines {
            commands: Commands::new(tape),
        }
    }
}

impl<'a> Iterator for Lines<'a> {
    type Item = Line<'a>;

    ghost next_gives = { YieldsFirstBy line_shown lines_left };

    ghost remaining = { item_count lines_left };

    fn next(&mut self) -> Option<Line<'a>> {
        while let Some(c) = self.commands.next() {
            if let Event::Line { address, indent } = c.event {
                return Some(Line {
                    address,
                    indent,
                    body: self.commands,
                });
            }
        }
        None
    }
}

// The line of a tape with a number, if there are so many.
pub fn line_at<'a>(tape: &'a [u8], n: usize) -> Option<Line<'a>>
    ensures { MatchOption result (get (held tape.entry.now) n ≡ none) (λ l. get (held tape.entry.now) n ≡ some (line_shown l)) }
{
    let mut before = n;
    for line in Lines::new(tape) {
        if before == 0 {
            return Some(line);
        }
        before -= 1;
    }
    None
}
