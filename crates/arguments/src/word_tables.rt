// Which words, options and operands there are. A further verb is a row, and what it takes.
ghost use Rattle.std.specs.Prelude.{◌≡◌, map};
ghost use Rattle.arguments.specs.Tables.{row_of, meaning_in, verbs, options, conventions, editions, readings, actions};
ghost use Rattle.arguments.specs.Tables.{kind_of, takes_output, takes, has_value, fewest, most};

use crate::request::{Action, Flag, Kind, Value, Verb};

const VERBS: [(&[u8], Verb); 17] = [
    (b"clean", Verb::Clean),
    (b"counts", Verb::Counts),
    (b"check", Verb::Check),
    (b"show", Verb::Show),
    (b"tape", Verb::Tape),
    (b"addresses", Verb::Addresses),
    (b"edition", Verb::Edition),
    (b"offsets", Verb::Offsets),
    (b"laborious", Verb::Laborious),
    (b"state", Verb::State),
    (b"help", Verb::Help),
    (b"version", Verb::Version),
    (b"--version", Verb::VersionOption),
    (b"-V", Verb::VersionOption),
    (b"page", Verb::Page),
    (b"start", Verb::Start),
    (b"cautions", Verb::Cautions),
];

const OPTIONS: [(&[u8], Flag); 14] = [
    (b"-c", Flag::Convention),
    (b"-e", Flag::Edition),
    (b"--parts", Flag::Parts),
    (b"--profile", Flag::Profile),
    (b"--settle", Flag::Settle),
    (b"-o", Flag::Output),
    (b"-d", Flag::Folder),
    (b"--exact", Flag::Exact),
    (b"--return", Flag::Return),
    (b"--choose", Flag::Choose),
    (b"-f", Flag::Force),
    (b"-q", Flag::Quiet),
    (b"--json", Flag::Json),
    (b"--filter-form", Flag::FilterForm),
];

// Kept: conventions and editions are numbers, as the C interface hands them over and `Rules` of crate lines holds them: an enum here would
// be turned into that number again for each, and is no plainer for the one place that asks an edition apart (`edition` of the command).
const CONVENTIONS: [(&[u8], u8); 3] = [(b"32", 0), (b"sysv", 1), (b"windows", 2)];

const EDITIONS: [(&[u8], u8); 2] = [(b"2018", 0), (b"2024", 1)];

// How numbers are read, by the words of -e; the last is an older word for the first.
const READINGS: [(&[u8], u8); 5] = [
    (b"rust", 0),
    (b"2024", 1),
    (b"0", 0),
    (b"1", 1),
    (b"2018", 0),
];

const ACTIONS: [(&[u8], Action); 4] = [
    (b"list", Action::List),
    (b"save", Action::Save),
    (b"get", Action::Get),
    (b"delete", Action::Delete),
];

// What a word stands for in a row of words.
fn meaning<T: Copy>(rows: &[(&[u8], T)], word: &[u8]) -> Option<T>
    ensures { result ≡ meaning_in (map row_of rows.now) word.now }
{
    let row = rows.iter().find(|row| row.0 == word)?;
    Some(row.1)
}

pub(crate) fn verb_in(word: &[u8]) -> Option<Verb>
    ensures { result ≡ meaning_in verbs word.now }
{
    meaning(&VERBS, word)
}

pub(crate) fn option_in(word: &[u8]) -> Option<Flag>
    ensures { result ≡ meaning_in options word.now }
{
    meaning(&OPTIONS, word)
}

pub(crate) fn convention_in(word: &[u8]) -> Option<u8>
    ensures { result ≡ meaning_in conventions word.now }
{
    meaning(&CONVENTIONS, word)
}

pub(crate) fn edition_in(word: &[u8]) -> Option<u8>
    ensures { result ≡ meaning_in editions word.now }
{
    meaning(&EDITIONS, word)
}

pub(crate) fn reading_in(word: &[u8]) -> Option<u8>
    ensures { result ≡ meaning_in readings word.now }
{
    meaning(&READINGS, word)
}

pub(crate) fn action_in(word: &[u8]) -> Option<Action>
    ensures { result ≡ meaning_in actions word.now }
{
    meaning(&ACTIONS, word)
}

impl Flag {
    pub(crate) fn has_value(self) -> bool
        ensures { result ≡ has_value self }
    {
        matches!(
            self,
            Flag::Convention
                | Flag::Edition
                | Flag::Output
                | Flag::Folder
                | Flag::Return
                | Flag::Choose
        )
    }
}

impl Verb {
    // What the operand behind so many others is; none, if there are no more.
    pub(crate) fn kind_of(self, operands: u64) -> Option<Kind>
        ensures { result ≡ kind_of self operands }
    {
        match (self, operands) {
            (Verb::Clean | Verb::Counts | Verb::Cautions | Verb::Check | Verb::Page, _) => {
                Some(Kind::File)
            }
            (Verb::Show | Verb::Tape | Verb::Addresses | Verb::Start, 0) => { Some(Kind::File) }
            (Verb::Edition, 0) => Some(Kind::Edition),
            (Verb::Offsets, 0) => Some(Kind::Base),
            (Verb::Edition | Verb::Offsets, 1) => Some(Kind::File),
            (Verb::Laborious, 0) => Some(Kind::Number),
            (Verb::State, 0 | 3) => Some(Kind::File),
            (Verb::State, 1) => Some(Kind::Action),
            (Verb::State, 2) => Some(Kind::Name),
            (Verb::Help, 0) => Some(Kind::Verb),
            _ => None,
        }
    }

    fn takes_output(self) -> bool
        ensures { result ≡ takes_output self }
    {
        matches!(
            self,
            Verb::Clean
                | Verb::Tape
                | Verb::Addresses
                | Verb::Edition
                | Verb::Offsets
                | Verb::Laborious
                | Verb::State
                | Verb::Page
        )
    }

    pub fn takes(self, option: Flag) -> bool
        ensures { result ≡ takes self option }
    {
        match option {
            Flag::Convention | Flag::Edition | Flag::Parts | Flag::Profile | Flag::Settle => {
                matches!(
                    self,
                    Verb::Clean | Verb::Counts | Verb::Cautions | Verb::Page
                )
            }
            Flag::Output | Flag::Force => self.takes_output(),
            Flag::Quiet => {
                matches!(self, Verb::Counts | Verb::Cautions | Verb::Check) || self.takes_output()
            }
            Flag::Json => matches!(
                self,
                Verb::Counts | Verb::Cautions | Verb::Check | Verb::Start
            ),
            Flag::FilterForm => matches!(
                self,
                Verb::Clean
                    | Verb::Counts
                    | Verb::Cautions
                    | Verb::Check
                    | Verb::Show
                    | Verb::Edition
                    | Verb::Offsets
                    | Verb::Page
                    | Verb::Start
            ),
            Flag::Folder => matches!(self, Verb::Clean | Verb::Page),
            Flag::Exact => matches!(self, Verb::Show),
            Flag::Return | Flag::Choose => matches!(self, Verb::Start),
        }
    }

    // How many operands a request has at least: one for `state` has three, but two where it lists or its action is not known.
    pub(crate) fn fewest(self, value: Option<Value>) -> u64
        ensures { result ≡ fewest self value }
    {
        match (self, value) {
            (Verb::Edition | Verb::Offsets | Verb::Laborious, _) => 1,
            (Verb::State, Some(Value::Action(Action::Save | Action::Get | Action::Delete))) => 3,
            (Verb::State, _) => 2,
            _ => 0,
        }
    }

    // How many it has at most, where `kind_of` has more.
    pub(crate) fn most(self, value: Option<Value>) -> Option<u64>
        ensures { result ≡ most self value }
    {
        match (self, value) {
            (Verb::State, Some(Value::Action(Action::Save))) => Some(4),
            (Verb::State, Some(Value::Action(Action::Get | Action::Delete))) => Some(3),
            (Verb::State, _) => Some(2),
            _ => None,
        }
    }
}
