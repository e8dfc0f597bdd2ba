// What is known of a request so far. Words are told by their number, from 0.
ghost use Rattle.std.specs.Prelude.{◌≡◌};
ghost use Rattle.arguments.specs.Request.{with_fault, with_operand};
ghost use Rattle.arguments.specs.Requests.{none_yet};

use ground::rules::Rules;

// What is to be done; VersionOption is the word `--version`.
#[derive(Clone, Copy, Debug, PartialEq, Eq)]
pub enum Verb {
    Clean,
    Counts,
    Check,
    Show,
    Tape,
    Addresses,
    Edition,
    Offsets,
    Laborious,
    State,
    Help,
    Version,
    VersionOption,
    Page,
    Start,
    Cautions,
}

// The options of the verbs.
#[derive(Clone, Copy, Debug, PartialEq, Eq)]
pub enum Flag {
    Convention,
    Edition,
    Parts,
    Profile,
    Settle,
    Output,
    Folder,
    Exact,
    Return,
    Choose,
    Force,
    Quiet,
    Json,
    FilterForm,
}

// What `state` does.
#[derive(Clone, Copy, Debug, PartialEq, Eq)]
pub enum Action {
    List,
    Save,
    Get,
    Delete,
}

// What an operand is: a file or a store, the name of a state, or what stands for a value.
#[derive(Clone, Copy, Debug, PartialEq, Eq)]
pub enum Kind {
    File,
    Name,
    Edition,
    Base,
    Number,
    Action,
    Verb,
}

// What an operand stands for.
// Kept: an edition is a byte (word_tables.rt says why).
#[derive(Clone, Copy, Debug, PartialEq, Eq)]
pub enum Value {
    Edition(u8),
    Number(u64),
    Action(Action),
    Verb(Verb),
}

// What can be wrong with the words.
#[derive(Clone, Copy, Debug, PartialEq, Eq)]
pub enum Problem {
    NoVerb,
    UnknownVerb,
    UnknownOption, // of this verb
    BadValue, // of the option before it
    SecondDestination,
    TooMany,
    BadOperand,
    TooFew,
    NoValue, // of the last option
    SeveralFiles, // with -o
    SecondValue, // of --return or --choose
    Incomplete, // one of the two is missing
    BadEntry, // no REG=VALUE
    NoFolder, // for several pages
}

// What is wrong, and the word by which it is told.
#[derive(Clone, Copy, Debug, PartialEq, Eq)]
pub struct Fault {
    pub problem: Problem,
    pub word: Option<u64>,
}

// The value of an option: a word from a byte on, which is 0 where the value is a word of its own.
#[derive(Clone, Copy, Debug, PartialEq, Eq)]
pub struct Part {
    pub word: u64,
    pub from: usize,
}

// Where the result goes: what names the file, or the folder.
#[derive(Clone, Copy, Debug, PartialEq, Eq)]
pub enum Destination {
    StandardOutput,
    File(Part),
    Folder(Part),
}

// The result: where it goes, and whether also where an input or a terminal is.
#[derive(Clone, Copy)]
pub struct Goal {
    pub destination: Destination,
    pub force: bool,
}

// In which form a tape is read, and what is told: a tape as the filter takes it; exact; as JSON; no more than what is wrong.
#[derive(Clone, Copy)]
pub struct Form {
    pub filter: bool,
    pub exact: bool,
    pub json: bool,
    pub quiet: bool,
}

// The operands so far: how many (9: nine or more), the first, the third and the last of them, and what the one stands for that is a value.
#[derive(Clone, Copy)]
pub struct Operands {
    pub count: u64,
    pub first: Option<u64>,
    pub third: Option<u64>,
    pub last: Option<u64>,
    pub value: Option<Value>,
}

// The value of --return, and the word that gave it.
#[derive(Clone, Copy)]
pub struct Wanted {
    pub value: u64,
    pub part: Part,
}

// What `start` asks: the values of --return and --choose, and the last operand that is an entry, REG=VALUE.
#[derive(Clone, Copy)]
pub struct Start {
    pub wanted: Option<Wanted>,
    pub chosen: Option<Part>,
    pub entry: Option<u64>,
}

// What the words so far ask for.
#[derive(Clone, Copy)]
pub struct Request {
    pub verb: Option<Verb>,
    pub help: bool, // -h or --help stands somewhere
    pub fault: Option<Fault>, // what is wrong first
    pub pending: Option<Flag>, // the option whose value comes next
    pub ended: bool, // behind --: no word is an option any more
    pub dated: bool, // -e 2018, an older word for -e rust
    pub rules: Rules, // the settings of a cleaning
    pub goal: Goal,
    pub form: Form,
    pub operands: Operands,
    pub start: Start,
}

impl Request {
    // Before the first word: nothing is asked for; the settings are System V, and numbers as the Rust reads them.
    pub fn begin() -> Self
        ensures { result ≡ none_yet }
    {
        Request {
            verb: None,
            help: false,
            fault: None,
            pending: None,
            ended: false,
            dated: false,
            rules: Rules {
                convention: 1,
                settle: false,
                edition: 0,
                parts: false,
                profile: false,
            },
            goal: Goal {
                destination: Destination::StandardOutput,
                force: false,
            },
            form: Form {
                filter: false,
                exact: false,
                json: false,
                quiet: false,
            },
            operands: Operands {
                count: 0,
                first: None,
                third: None,
                last: None,
                value: None,
            },
            start: Start {
                wanted: None,
                chosen: None,
                entry: None,
            },
        }
    }

    // What is wrong, and the word by which it is told.
    pub(crate) fn fail(&mut self, problem: Problem, word: Option<u64>)
        ensures { self.new ≡ with_fault problem word self.old }
    {
        self.fault = Some(Fault { problem, word });
    }

    // One operand more: word k.
    pub(crate) fn add_operand(&mut self, k: u64)
        ensures { self.new ≡ with_operand k self.old }
    {
        let operands = &mut self.operands;
        match operands.count {
            0 => operands.first = Some(k),
            2 => operands.third = Some(k),
            _ => {}
        }
        operands.last = Some(k);
        operands.count = operands.count.min(8) + 1;
    }
}
