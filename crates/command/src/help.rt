// The help, and what is said of wrong use.
use crate::console::{Trouble, print, tell};
use arguments::{Fault, Flag, Problem, Verb};
use words::nth_word;

// The first lines of the help.
const FRONT: &[u8] = b"puchkewa cleans listings of pseudocode: a tape in, the cleaned tape out\n\
    usage: puchkewa WORD [OPTION..] [FILE..]\n\
    puchkewa help lists the words, puchkewa help WORD (or puchkewa WORD --help) tells of one\n";

// What is told of a verb.
fn lines_of(verb: Verb) -> &'static [u8] {
    match verb {
        Verb::Clean => { b"\x20 clean [SETTINGS] [FILE..] [-o OUT | -d DIR]  the cleaned tapes\n" }
        Verb::Counts => {
            b"\x20 counts [SETTINGS] [FILE..]                   what a cleaning did, in numbers\n"
        }
        Verb::Cautions => {
            b"\x20 cautions [SETTINGS] [FILE..]                 which cleaned lines may mean something else, and why\n"
        }
        Verb::Check => {
            b"\x20 check [FILE..]                               whether tapes are accepted\n"
        }
        Verb::Show => { b"\x20 show [FILE] [--exact]                        a tape as text\n" }
        Verb::Tape => {
            b"\x20 tape [TEXT] [-o OUT]                         the tape of what show --exact printed\n"
        }
        Verb::Addresses => {
            b"\x20 addresses [FILE] [-o OUT]                    a tape by offset, with its addresses again\n"
        }
        Verb::Edition => {
            b"\x20 edition 2018|2024 [FILE] [-o OUT]            a tape for that edition of C\n"
        }
        Verb::Offsets => {
            b"\x20 offsets BASE [FILE] [-o OUT]                 a tape by offset from a load address (hexadecimal)\n"
        }
        Verb::Laborious => {
            b"\x20 laborious N [-o OUT]                         the most laborious tape of N lines, 0 to 256\n"
        }
        Verb::State => {
            b"\x20 state STORE list                             named states of a listing, eight at most, in the file STORE\n\
              \x20 state STORE save NAME [FILE]                 under a name of 1 to 8 bytes; makes STORE where it is missing\n\
              \x20 state STORE get NAME [-o OUT]\n\
              \x20 state STORE delete NAME\n"
        }
        Verb::Help => {
            b"\x20 help [WORD]                                  this, or what is told of one word\n"
        }
        Verb::Version => { b"\x20 version                                      the version\n" }
        Verb::VersionOption => b"",
        Verb::Page => {
            b"\x20 page [SETTINGS] [FILE..] [-o OUT | -d DIR]    before and after side by side, an HTML page; with -d an index too\n"
        }
        Verb::Start => {
            b"\x20 start --return V --choose REG [REG=V..] [FILE]\n\
              \x20                                              the smallest start value of a register for which a formula returns V\n"
        }
    }
}

// What is told of an option.
fn line_of(option: Flag) -> &'static [u8] {
    match option {
        Flag::Convention => b"\x20 -c 32|sysv|windows  the calling convention (sysv)\n",
        Flag::Edition => {
            b"\x20 -e rust|2024        how numbers are read: as the Rust does, or by C of 2024 (rust)\n"
        }
        Flag::Parts => {
            b"\x20 --parts             ah is not al: parts of a register are kept apart\n"
        }
        Flag::Profile => {
            b"\x20 --profile           only straight pieces, whose returned value is kept\n"
        }
        Flag::Settle => b"\x20 --settle            rounds until one changes nothing\n",
        Flag::Output => b"\x20 -o OUT              the result goes to the file OUT\n",
        Flag::Folder => {
            b"\x20 -d DIR              to files of the same names in the folder DIR; pages with .html, and index.html over them\n"
        }
        Flag::Exact => b"\x20 --exact             in the form that tape reads\n",
        Flag::Return => b"\x20 --return V          the value that is to be returned\n",
        Flag::Choose => b"\x20 --choose REG        the register whose start value is asked for\n",
        Flag::FilterForm => {
            b"\x20 --filter-form       a convention byte stands in front of the tape, as the filter takes it\n"
        }
        Flag::Json => b"\x20 --json              an object of JSON a line\n",
        Flag::Force => {
            b"\x20 -f                  the result may go onto an input, a tape to a terminal\n"
        }
        Flag::Quiet => b"\x20 -q                  no progress, no line at the end, no notes\n",
    }
}

// The options in the order of the help.
const OPTIONS: [Flag; 14] = [
    Flag::Convention,
    Flag::Edition,
    Flag::Parts,
    Flag::Profile,
    Flag::Settle,
    Flag::FilterForm,
    Flag::Output,
    Flag::Folder,
    Flag::Force,
    Flag::Exact,
    Flag::Return,
    Flag::Choose,
    Flag::Json,
    Flag::Quiet,
];

// What start's words are.
const VALUES: &[u8] =
    b"V is a decimal number, or hexadecimal behind 0x, from 0 to 2^64-1; -1 to -2^63 are taken as a register holds them.\n\
    An operand of start with a = in it gives a register its value, the others start with 0; a file that has a = in its\n\
    name is given with its path, as ./a=b: what begins with . or / is always a file.\n";

// What verbs have in common that read files.
const FILES: &[u8] =
    b"A FILE is a tape; - or none is standard input. A file is written whole or not at all. What is refused is told on standard\n\
    error with the file's name, and the others are still done. The exit status is 0 where all was done, 1 where something\n\
    was refused or failed, 2 for wrong use. -- ends the options; a value may stand in its option's word: -csysv, --return=10.\n";

// The verbs in the order of the help.
const ORDER: [Verb; 15] = [
    Verb::Clean,
    Verb::Counts,
    Verb::Cautions,
    Verb::Page,
    Verb::Start,
    Verb::Check,
    Verb::Show,
    Verb::Tape,
    Verb::Addresses,
    Verb::Edition,
    Verb::Offsets,
    Verb::Laborious,
    Verb::State,
    Verb::Help,
    Verb::Version,
];

// The whole help.
fn help_all(rt: &HostRuntime) -> Result<(), Trouble> {
    print(rt, FRONT)?;
    for verb in ORDER {
        print(rt, lines_of(verb))?;
    }
    print(
        rt,
        b"OPTIONS (puchkewa help WORD tells which a word takes)\n",
    )?;
    for option in OPTIONS {
        print(rt, line_of(option))?;
    }
    print(rt, VALUES)?;
    print(rt, FILES)
}

// The help of a verb: its lines, and what it takes.
fn help_one(rt: &HostRuntime, verb: Verb) -> Result<(), Trouble> {
    print(rt, lines_of(verb))?;
    for option in OPTIONS {
        if verb.takes(option) {
            print(rt, line_of(option))?;
        }
    }
    match verb {
        Verb::Help | Verb::Version => return Ok(()),
        Verb::Start => print(rt, VALUES)?,
        _ => {}
    }
    print(rt, FILES)
}

// The help of a verb; without one, and of --version, the whole.
pub(crate) fn help(rt: &HostRuntime, verb: Option<Verb>) -> Result<(), Trouble> {
    match verb {
        None | Some(Verb::VersionOption) => help_all(rt),
        Some(verb) => help_one(rt, verb),
    }
}

// What is wrong with the words, behind the word by which it is told.
fn words_of(problem: Problem) -> &'static [u8] {
    match problem {
        Problem::NoVerb => b"no word says what to do",
        Problem::UnknownVerb => b"is no word of puchkewa",
        Problem::UnknownOption => b"is no option here",
        Problem::BadValue => b"is no value of the option before it",
        Problem::SecondDestination => b"is a second place for the result",
        Problem::TooMany => b"is one word too many",
        Problem::BadOperand => b"is not what must stand here",
        Problem::TooFew => b"a word is missing at the end",
        Problem::NoValue => b"the value of the last option is missing",
        Problem::SeveralFiles => b"takes the result of one file only; -d takes several",
        Problem::SecondValue => b"is a second value for the option before it",
        Problem::Incomplete => b"--return and --choose must both be given",
        Problem::BadEntry => b"is no REG=V with a value V of 64 bits",
        Problem::NoFolder => b"several pages need a folder: -d DIR",
    }
}

// Wrong use: what is wrong, and the first lines of the help.
pub(crate) fn tell_wrong(words: &[u8], verb: Option<Verb>, fault: Fault) {
    tell(b"puchkewa: ");
    if let Some(k) = fault.word {
        tell(nth_word(words, k));
        tell(b" ");
    }
    tell(words_of(fault.problem));
    tell(b"\n");
    tell(FRONT);
    if let Some(verb) = verb {
        tell(lines_of(verb));
    }
}
