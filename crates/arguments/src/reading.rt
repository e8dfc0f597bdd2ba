// The words of a request, one after the other.
ghost use Rattle.std.specs.Prelude.{◌≡◌, ◌+◌, ◌*◌, ◌≤◌, length, take, drop};
ghost use Rattle.reference.specs.Text.{◌≟◌, bytes, starts_with};
ghost use Rattle.words.specs.Splitting.{split};
ghost use Rattle.arguments.specs.Requests.{take_verb, take_convention, take_edition, take_destination, take_wanted, take_chosen};
ghost use Rattle.arguments.specs.Requests.{take_value, set_option, option_length, value_from, put_option, put_joined, take_joined};
ghost use Rattle.arguments.specs.Requests.{take_option, put_value, take_name, put_operand, take_entry, take_operand, is_option};
ghost use Rattle.arguments.specs.Requests.{is_help, is_dated, take_free, take_word, step_of, judge_output, judge_plain, judge_options};
ghost use Rattle.arguments.specs.Requests.{judge_operands, judged, request_of, entries_of};
ghost use Rattle.text.specs.Cursor.{Written};

use crate::entries::{entry_in, equals_at, is_entry, put_taken};
use crate::first_word::{is_at, next_word};
use crate::request::{
    Action, Destination, Flag, Kind, Operands, Part, Problem, Request, Value, Verb, Wanted,
};
use crate::values::{is_name, value_of};
use crate::word_tables::{convention_in, option_in, reading_in, verb_in};
use text::Cursor;
use words::integer_in;

// An option begins with a -; a - alone is standard input.
#[tactic(auto, using(laws::proofs::Std::tests_of_std))]
fn is_option(word: &[u8]) -> bool
    ensures { result ≡ is_option word.now }
{
    2 <= word.len() && word.starts_with(b"-")
}

fn is_help(word: &[u8]) -> bool
    ensures { result ≡ is_help word.now }
{
    word == b"-h".as_slice() || word == b"--help".as_slice()
}

fn is_dated(word: &[u8]) -> bool
    ensures { result ≡ is_dated word.now }
{
    word == b"2018".as_slice()
}

fn is_end(word: &[u8]) -> bool
    ensures { result ≡ (word.now ≟ bytes "--") }
{
    word == b"--".as_slice()
}

// ---- an option and its value in one word: -cVALUE, --NAME=VALUE

fn is_long(word: &[u8]) -> bool
    ensures { result ≡ starts_with word.now (bytes "--") }
{
    word.starts_with(b"--")
}

// How long the option is.
fn option_length(word: &[u8]) -> usize
    ensures { result ≡ option_length word.now }
{
    if is_long(word) { equals_at(word) } else { 2 }
}

// Where the value begins.
fn value_from(word: &[u8]) -> usize
    ensures { result ≡ value_from word.now }
{
    if is_long(word) {
        equals_at(word) + 1
    } else {
        2
    }
}

// The first n bytes of a word, and those behind them: what there is of them.
fn before(word: &[u8], n: usize) -> &[u8]
    ensures { result.now ≡ take n word.now }
{
    &word[..n.min(word.len())]
}

fn behind(word: &[u8], n: usize) -> &[u8]
    ensures { result.now ≡ drop n word.now }
{
    &word[n.min(word.len())..]
}

// Each takes word k.
// Kept: number and word are two parameters, in fourteen methods: the definitions take the two, so that each contract would take a struct of
// them apart again.
impl Request {
    fn take_verb(&mut self, k: u64, word: &[u8])
        ensures { self.new ≡ take_verb self.old k word.now }
    {
        match verb_in(word) {
            Some(verb) => self.verb = Some(verb),
            None => self.fail(Problem::UnknownVerb, Some(k)),
        }
    }

    fn take_convention(&mut self, k: u64, word: &[u8])
        ensures { self.new ≡ take_convention self.old k word.now }
    {
        match convention_in(word) {
            Some(convention) => self.rules.convention = convention,
            None => self.fail(Problem::BadValue, Some(k)),
        }
    }

    fn take_edition(&mut self, k: u64, word: &[u8])
        ensures { self.new ≡ take_edition self.old k word.now }
    {
        match reading_in(word) {
            Some(edition) => {
                self.dated = self.dated || is_dated(word);
                self.rules.edition = edition;
            }
            None => self.fail(Problem::BadValue, Some(k)),
        }
    }

    // The word names a file or a folder for the result: only one is taken.
    fn take_destination(&mut self, destination: Destination, k: u64)
        ensures { self.new ≡ take_destination self.old destination k }
    {
        match self.goal.destination {
            Destination::StandardOutput => self.goal.destination = destination,
            _ => self.fail(Problem::SecondDestination, Some(k)),
        }
    }

    // The value that is to be returned.
    fn take_wanted(&mut self, part: Part, word: &[u8])
        ensures { self.new ≡ take_wanted self.old part word.now }
    {
        match (self.start.wanted, integer_in(word)) {
            (Some(_), _) => self.fail(Problem::SecondValue, Some(part.word)),
            (None, Some(value)) => self.start.wanted = Some(Wanted { value, part }),
            (None, None) => self.fail(Problem::BadValue, Some(part.word)),
        }
    }

    // The word names the register whose start value is asked for.
    fn take_chosen(&mut self, part: Part)
        ensures { self.new ≡ take_chosen self.old part }
    {
        match self.start.chosen {
            Some(_) => self.fail(Problem::SecondValue, Some(part.word)),
            None => self.start.chosen = Some(part),
        }
    }

    // The value of an option, where it stands.
    fn take_value(&mut self, option: Flag, part: Part, value: &[u8])
        ensures { self.new ≡ take_value self.old option part value.now }
    {
        self.pending = None;
        let k = part.word;
        match option {
            Flag::Convention => self.take_convention(k, value),
            Flag::Edition => self.take_edition(k, value),
            Flag::Output => self.take_destination(Destination::File(part), k),
            Flag::Folder => self.take_destination(Destination::Folder(part), k),
            Flag::Return => self.take_wanted(part, value),
            _ => self.take_chosen(part),
        }
    }

    // What an option that the verb takes asks for: a setting, or that its value comes next.
    fn set_option(&mut self, option: Flag)
        ensures { self.new ≡ set_option self.old option }
    {
        match option {
            Flag::Parts => self.rules.parts = true,
            Flag::Profile => self.rules.profile = true,
            Flag::Settle => self.rules.settle = true,
            Flag::Exact => self.form.exact = true,
            Flag::Force => self.goal.force = true,
            Flag::Quiet => self.form.quiet = true,
            Flag::Json => self.form.json = true,
            Flag::FilterForm => self.form.filter = true,
            _ => self.pending = Some(option),
        }
    }

    fn put_option(&mut self, verb: Verb, k: u64, option: Flag)
        ensures { self.new ≡ put_option self.old verb k option }
    {
        if verb.takes(option) {
            self.set_option(option);
        } else {
            self.fail(Problem::UnknownOption, Some(k));
        }
    }

    // A word that holds an option and its value.
    fn put_joined(&mut self, verb: Verb, k: u64, option: Flag, word: &[u8])
        ensures { self.new ≡ put_joined self.old verb k option word.now }
    {
        let from = value_from(word);
        if option.has_value() && verb.takes(option) {
            self.take_value(option, Part { word: k, from }, behind(word, from));
        } else {
            self.fail(Problem::UnknownOption, Some(k));
        }
    }

    fn take_joined(&mut self, verb: Verb, k: u64, word: &[u8])
        ensures { self.new ≡ take_joined self.old verb k word.now }
    {
        match option_in(before(word, option_length(word))) {
            Some(option) => self.put_joined(verb, k, option, word),
            None => self.fail(Problem::UnknownOption, Some(k)),
        }
    }

    fn take_option(&mut self, verb: Verb, k: u64, word: &[u8])
        ensures { self.new ≡ take_option self.old verb k word.now }
    {
        match option_in(word) {
            Some(option) => self.put_option(verb, k, option),
            None => self.take_joined(verb, k, word),
        }
    }

    // An operand that stands for a value.
    fn put_value(&mut self, k: u64, kind: Kind, word: &[u8])
        ensures { self.new ≡ put_value self.old k kind word.now }
    {
        match value_of(kind, word) {
            Some(value) => {
                self.add_operand(k);
                self.operands.value = Some(value);
            }
            None => self.fail(Problem::BadOperand, Some(k)),
        }
    }

    // The name of a state.
    fn take_name(&mut self, k: u64, word: &[u8])
        ensures { self.new ≡ take_name self.old k word.now }
    {
        if is_name(word) {
            self.add_operand(k);
        } else {
            self.fail(Problem::BadOperand, Some(k));
        }
    }

    // An operand of a kind; none: one too many.
    fn put_operand(&mut self, k: u64, kind: Option<Kind>, word: &[u8])
        ensures { self.new ≡ put_operand self.old k kind word.now }
    {
        match kind {
            None => self.fail(Problem::TooMany, Some(k)),
            Some(Kind::File) => self.add_operand(k),
            Some(Kind::Name) => self.take_name(k, word),
            Some(kind) => self.put_value(k, kind, word),
        }
    }

    // REG=VALUE.
    fn take_entry(&mut self, k: u64, word: &[u8])
        ensures { self.new ≡ take_entry self.old k word.now }
    {
        match entry_in(word) {
            Some(_) => self.start.entry = Some(k),
            None => self.fail(Problem::BadEntry, Some(k)),
        }
    }

    // An operand; of `start` it may be an entry.
    fn take_operand(&mut self, verb: Verb, k: u64, word: &[u8])
        ensures { self.new ≡ take_operand self.old verb k word.now }
    {
        if matches!(verb, Verb::Start) && is_entry(word) {
            self.take_entry(k, word);
        } else {
            self.put_operand(k, verb.kind_of(self.operands.count), word);
        }
    }

    // A word that is no value of the option before it; -- ends the options.
    fn take_free(&mut self, verb: Verb, k: u64, word: &[u8])
        ensures { self.new ≡ take_free self.old verb k word.now }
    {
        if self.ended || !is_option(word) {
            self.take_operand(verb, k, word);
        } else if is_end(word) {
            self.ended = true;
        } else {
            self.take_option(verb, k, word);
        }
    }

    fn take_word(&mut self, k: u64, word: &[u8])
        ensures { self.new ≡ take_word self.old k word.now }
    {
        match (self.verb, self.pending) {
            (None, _) => self.take_verb(k, word),
            (Some(_), Some(option)) => self.take_value(option, Part { word: k, from: 0 }, word),
            (Some(verb), None) => self.take_free(verb, k, word),
        }
    }

    // Help is asked for by -h or --help wherever it stands before --, and what comes behind a fault is not looked at.
    #[tactic(auto, unfolding(crate::specs::Requests::step_of))]
    pub fn step(mut self, k: u64, word: &[u8]) -> Self
        ensures { result ≡ step_of self k word.now }
    {
        if !self.ended && is_help(word) {
            self.help = true;
        } else if self.fault.is_none() {
            self.take_word(k, word);
        }
        self
    }
}

// What is wrong with all the words together, where none is wrong by itself.
impl Request {
    // -o, whose value is word k, takes the result of one file; of `state` only `get` has a result.
    fn judge_output(&mut self, verb: Verb, k: u64)
        ensures { self.new ≡ judge_output self.old verb k }
    {
        match (verb, self.operands.value) {
            (Verb::Clean | Verb::Page, _) if 1 < self.operands.count => {
                self.fail(Problem::SeveralFiles, Some(k))
            }
            (Verb::State, Some(Value::Action(Action::Get))) => {}
            (Verb::State, _) => self.fail(Problem::UnknownOption, Some(k)),
            _ => {}
        }
    }

    // `start` needs --return and --choose; several pages need a folder.
    fn judge_plain(&mut self, verb: Verb)
        ensures { self.new ≡ judge_plain self.old verb }
    {
        match (verb, self.start.wanted, self.start.chosen) {
            (Verb::Start, None, _) | (Verb::Start, _, None) => self.fail(Problem::Incomplete, None),
            (Verb::Page, _, _) if 1 < self.operands.count => self.fail(Problem::NoFolder, None),
            _ => {}
        }
    }

    fn judge_options(&mut self, verb: Verb)
        ensures { self.new ≡ judge_options self.old verb }
    {
        match self.goal.destination {
            Destination::StandardOutput => self.judge_plain(verb),
            Destination::File(part) => self.judge_output(verb, part.word),
            Destination::Folder(_) => {}
        }
    }

    // How many operands there are, what -o stands beside, and which options are needed.
    fn judge_operands(&mut self, verb: Verb)
        ensures { self.new ≡ judge_operands self.old verb }
    {
        let Operands {
            count,
            last,
            value,
            ..
        } = self.operands;
        match verb.most(value) {
            _ if count < verb.fewest(value) => self.fail(Problem::TooFew, None),
            Some(most) if most < count => self.fail(Problem::TooMany, last),
            _ => self.judge_options(verb),
        }
    }

    #[tactic(auto, unfolding(crate::specs::Requests::judged))]
    fn judge(mut self) -> Self
        ensures { result ≡ judged self }
    {
        match (self.fault, self.verb, self.pending) {
            (Some(_), _, _) => {}
            (None, None, _) => self.fail(Problem::NoVerb, None),
            (None, Some(_), Some(_)) => self.fail(Problem::NoValue, None),
            (None, Some(verb), None) => self.judge_operands(verb),
        }
        self
    }
}

// What a slice of words asks for.
pub fn parse(words: &[u8]) -> Request
    ensures { result ≡ request_of (split words.now) }
{
    let mut s = Request::begin();
    // Kept: counted by hand, word by word, as in the loops beside it: an iterator of words with `enumerate` was tried here, and what its
    // loop begins with (`loop-k-init`) stayed open.
    let mut k: u64 = 0;
    let mut left = words;
    while let Some((word, rest)) = next_word(left) {
        s = s.step(k, word);
        k += 1;
        left = rest;
    }
    s.judge()
}

// Puts the entries of a slice of words at the front, as the list that crate start takes, and says how long it is.
// Kept: it answers a length: it promises every byte of the lent buffer, those behind the list too (`Written`), of which a slice of the
// buffer as the answer would say nothing.
pub fn put_entries(words: &[u8], out: &mut [u8]) -> usize
    requires { 9 * length words.now + 9 ≤ length out.old }
    ensures { Written out.old 0 (entries_of (split words.now)) out.new result }
{
    let mut s = Request::begin();
    let mut list = Cursor::new(out, 0);
    // Kept: counted by hand, as in `parse`.
    let mut k: u64 = 0;
    let mut left = words;
    while let Some((word, rest)) = next_word(left) {
        s = s.step(k, word);
        put_taken(is_at(s.start.entry, k), word, &mut list);
        k += 1;
        left = rest;
    }
    list.at
}
