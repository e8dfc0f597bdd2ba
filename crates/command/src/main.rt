// The command `puchkewa`: cleans tapes in files, and the other calls of the library. bin/puchkewa runs it.
//
// What the words ask for is read by crate arguments, and what is written of a reply is made by crate reports; the work is the library's.
// Here stands only what reads, writes and prints. The exit status is 0 where all was done, 1 where something was refused or failed, 2 where
// the words were wrong.
#![tactic(auto)]

mod batches; // several files in one call
mod cautioning; // what is told of cautioned lines
mod console; // the standard streams, and how things end
mod guards; // what is looked at before anything is done
mod help; // the help, and wrong use
mod index; // the index over the pages of a folder
mod json; // a reply as JSON
mod outputs; // results, and where they go
mod refusals; // what is told of a refusal
mod stores; // named states, in a file
mod texts; // the tape of a text

use answers::{Answer, Reason, Refusal};
use arguments::{Destination, Part, Request, Value, Verb, base_name};
use caution_words::count_cautioned;
use clean::{Finished, Tally};
use console::{
    Fate, Outcome, Trouble, buffer_of, failed_by, is_dash, no_memory, print, put_path, read_file,
    tell, tell_name,
};
use files::{append, front};
use ground::rules::Rules;
use json::{print_object, print_quoted};
use listing_text::put_listing;
use outputs::Product;
use refusals::{fate_of, print_refused, tell_in_tape, tell_no_register};
use render::{Cleaning, count_of};
use std::env::FillError;
use std::process::ExitCode;
use std::rt::Env;
use tape::questions::Totals;
use words::nth_word;

// Where the results go.
#[derive(Clone, Copy)]
pub(crate) enum Target<'a> {
    StandardOutput,
    File(&'a [u8]),
    Folder(&'a [u8]),
}

// What was asked for: the words, what they say, and where the results go.
#[derive(Clone, Copy)]
pub(crate) struct Call<'a> {
    rt: &'a HostRuntime,
    words: &'a [u8],
    request: Request,
    target: Target<'a>,
}

// A tape as it was read, with its name and the settings of its cleaning.
#[derive(Clone, Copy)]
struct Input<'a> {
    name: &'a [u8],
    tape: &'a [u8],
    rules: Rules,
}

// ---- words

// Puts all arguments but the program's name, each ended by a 0, and answers where they end; none where they do not fit.
// Kept: a buffer, and where it ends: `arg` copies an argument into a slice that is there and tells no length before, so that a `Vec` would
// be filled with zeros first for each.
fn gather(rt: &HostRuntime, words: &mut [u8]) -> Option<usize> {
    let mut at = 0;
    for i in 1..usize::MAX {
        let room = words.get_mut(at..)?;
        match rt.arg(i, room) {
            Ok(n) => {
                *room.get_mut(n)? = 0;
                at += n + 1;
            }
            Err(FillError::TooLong) => return None,
            Err(FillError::NotPresent) => return Some(at),
        }
    }
    None
}

// What the value of an option is.
fn part_of(words: &[u8], part: Part) -> &[u8] {
    nth_word(words, part.word)
        .get(part.from..)
        .unwrap_or_default()
}

fn target_of(words: &[u8], destination: Destination) -> Target<'_> {
    match destination {
        Destination::StandardOutput => Target::StandardOutput,
        Destination::File(part) => Target::File(part_of(words, part)),
        Destination::Folder(part) => Target::Folder(part_of(words, part)),
    }
}

// ---- where a result goes

impl Call<'_> {
    // The path of a file's result in a folder, if it fits: of the same name, a page's with .html behind it.
    fn put_path_in(&self, dir: &[u8], name: &[u8], path: &mut [u8]) -> Option<usize> {
        let n = put_path(dir, base_name(name), path)?;
        if self.request.verb == Some(Verb::Page) {
            append(b".html", path, n)
        } else {
            Some(n)
        }
    }

    // To the file of that name in the folder DIR.
    fn deliver_into(&self, dir: &[u8], name: &[u8], product: Product) -> Result<(), Trouble> {
        if is_dash(name) {
            return Err(failed_by(self.rt, b"puchkewa", b"-d needs the names of files"));
        }
        let mut path = [0u8; 8200];
        match self.put_path_in(dir, name, &mut path) {
            Some(n) => product.write(self.rt, front(&path, n)),
            None => Err(failed_by(self.rt, name, b"the name is too long")),
        }
    }

    // The index over the pages, where several are made.
    fn deliver_index(&self) -> Result<(), Trouble> {
        let mut path = [0u8; 8200];
        match (self.request.verb, self.target) {
            (Some(Verb::Page), Target::Folder(dir)) => match put_path(
                dir,
                b"index.html",
                &mut path,
            ) {
                Some(n) => Product::Index(self).write(self.rt, front(&path, n)),
                None => Err(failed_by(self.rt, dir, b"the name is too long")),
            },
            _ => Ok(()),
        }
    }

    // A word by its number; nothing for none.
    fn word(&self, k: Option<u64>) -> &[u8] {
        match k {
            Some(k) => nth_word(self.words, k),
            None => &self.words[..0],
        }
    }

    // The result of a file.
    fn deliver(&self, name: &[u8], product: Product) -> Result<(), Trouble> {
        match self.target {
            Target::StandardOutput => product.print(self.rt),
            Target::File(path) => product.write(self.rt, path),
            Target::Folder(dir) => self.deliver_into(dir, name, product),
        }
    }

    // A call beside the cleaning: what it puts into a buffer of 131,072 bytes is delivered.
    fn answered<F: FnOnce(&mut [u8]) -> Answer>(&self, name: &[u8], call: F) -> Result<(), Trouble>
        requires { F.IsAlwaysCallable call }
    {
        let mut out = buffer_of(self.rt, 131072)?;
        let n = call(out.as_mut_slice())?;
        // Kept: an answer is a u64, as C has it; std has no `From` of it for usize, and the error of `try_from` cannot come: no plainer.
        self.deliver(name, Product::Bytes(front(&out, n as usize)))
    }
}

// ---- what is printed of a reply

fn print_counts(rt: &HostRuntime, f: Finished, cautioned: u64) -> Result<(), Trouble> {
    let mut line = [0u8; 256];
    let n = reports::put_counts(
        count_of(f.length),
        f.tally,
        f.removed,
        f.cut,
        cautioned,
        &mut line,
    );
    print(rt, front(&line, n))
}

fn print_json_counts(
    rt: &HostRuntime,
    name: &[u8],
    f: Finished,
    cautioned: u64,
) -> Result<(), Trouble> {
    let Finished {
        length,
        tally,
        removed,
        cut,
    } = f;
    let rest = match tally {
        Tally::Three {
            first,
            second,
            third,
        } => format!(in rt.alloc();
            ",\"length\":{length},\"settled\":false,\"attempts\":[{first},{second},{third}],\
              \"removed\":{removed},\"cut\":{cut},\"cautioned\":{cautioned}"
        ),
        Tally::Settled { rounds, attempts } => format!(in rt.alloc();
            ",\"length\":{length},\"settled\":true,\"rounds\":{rounds},\"attempts\":{attempts},\
              \"removed\":{removed},\"cut\":{cut},\"cautioned\":{cautioned}"
        ),
    };
    print_object(rt, name, rest)
}

// ---- a start value

impl Call<'_> {
    // Asks for the start value, by way of a buffer for the list of the words' entries, and prints its line.
    fn print_start_value(&self, input: Input, list: &mut [u8]) -> Result<(), Trouble> {
        if list.len() / 9 <= self.words.len() {
            return Err(failed_by(
                self.rt,
                b"puchkewa",
                b"the words of start have more than 65,536 bytes",
            ));
        }
        let n = arguments::put_entries(self.words, list);
        let (Some(part), Some(wanted)) = (self.request.start.chosen, self.request.start.wanted)
        else {
            return Ok(());
        };
        let chosen = part_of(self.words, part);
        match start::start_value(input.tape, chosen, front(list, n), wanted.value) {
            Ok(v) => self.print_start(input, chosen, front(list, n), wanted.value, v),
            Err(refused) if refused.reason == Reason::NoRegister => {
                if self.request.form.json {
                    print_refused(self.rt, input.name, input.tape, refused)?;
                }
                let name = start::unknown_name(chosen, front(list, n)).unwrap_or(chosen);
                Err(tell_no_register(self.rt, input.name, name))
            }
            Err(refused) => Err(Trouble::Refused(refused)),
        }
    }

    // How far the next value lies that is returned too, as a power of 2: 64 where there is none, 0 where every value is. What is returned
    // is m * v + c modulo 2^64: a value works for a wanted one that is 2^s more where 2 divides m at most s times, and not where more
    // often.
    fn step_of(&self, tape: &[u8], chosen: &[u8], list: &[u8], wanted: u64) -> u32 {
        for s in 0..64u32 {
            let further = wanted.wrapping_add(1u64 << s);
            if start::start_value(tape, chosen, list, further).is_ok() {
                return 64 - s;
            }
        }
        0
    }

    fn print_start(
        &self,
        input: Input,
        chosen: &[u8],
        list: &[u8],
        wanted: u64,
        v: u64,
    ) -> Result<(), Trouble> {
        if self.request.form.json {
            print(self.rt, b"{\"file\":\"")?;
            print_quoted(self.rt, input.name)?;
            print(self.rt, b"\",\"register\":\"")?;
            print_quoted(self.rt, chosen)?;
            return match format!(in self.rt.alloc();
                "\",\"value\":\"{v:#x}\",\"decimal\":\"{v}\"}}\n"
            ) {
                Ok(rest) => print(self.rt, rest.as_bytes()),
                Err(_) => Err(no_memory(self.rt)),
            };
        }
        let mut line = [0u8; 65581];
        let n = if chosen.len() <= 65536 {
            reports::put_start(chosen, v, &mut line)
        } else {
            0
        };
        print(self.rt, front(&line, n))?;
        self.tell_others(input, chosen, list, wanted)
    }

    // Tells on standard error, where the value is one of several, how they follow.
    fn tell_others(
        &self,
        input: Input,
        chosen: &[u8],
        list: &[u8],
        wanted: u64,
    ) -> Result<(), Trouble> {
        let line = match self.step_of(input.tape, chosen, list, wanted) {
            0 => format!(in self.rt.alloc();
                "any other value does too: the result does not depend on it"
            ),
            n if n < 64 => {
                let step = 1u64 << n;
                format!(in self.rt.alloc();
                    "the smallest of several: each {step:#x} further does too"
                )
            }
            _ => return Ok(()),
        };
        let Ok(line) = line else {
            return Err(no_memory(self.rt));
        };
        tell_name(self.rt, input.name);
        tell(line.as_bytes());
        tell(b"\n");
        Ok(())
    }

    // The smallest start value of the chosen register.
    fn start_one(&self, input: Input) -> Result<(), Trouble> {
        let mut list = buffer_of(self.rt, 589833)?;
        self.print_start_value(input, &mut list)
    }
}

// ---- one file

impl Input<'_> {
    // Cleans the tape into a buffer.
    fn clean(&self, out: &mut [u8]) -> Result<Finished, Refusal> {
        let mut work_a = [0u8; 49152];
        let mut work_b = [0u8; 49152];
        clean::clean(self.rules, self.tape, &mut work_a, &mut work_b, out)
    }
}

impl Call<'_> {
    // The name of a file in front of its line; none where no file was named.
    fn print_name(&self, name: &[u8]) -> Result<(), Trouble> {
        if self.request.operands.count == 0 {
            return Ok(());
        }
        print(self.rt, name)?;
        print(self.rt, b": ")
    }

    fn clean_one(&self, input: Input) -> Result<(), Trouble> {
        let mut out = [0u8; 59137];
        let f = input.clean(&mut out)?;
        self.deliver(input.name, Product::Bytes(front(&out, f.length)))
    }

    fn count_one(&self, input: Input) -> Result<(), Trouble> {
        let mut out = [0u8; 59137];
        let mut sets = [0u8; 512];
        let f = input.clean(&mut out)?;
        let cautioned = count_of(count_cautioned(input.cautions(&mut sets)?));
        if self.request.form.json {
            return print_json_counts(self.rt, input.name, f, cautioned);
        }
        self.print_name(input.name)?;
        print_counts(self.rt, f, cautioned)
    }

    fn check_one(&self, input: Input) -> Result<(), Trouble> {
        let Totals {
            lines,
            tokens,
            text,
            ..
        } = tape::check::<false>(input.tape)?;
        if self.request.form.json {
            let rest = format!(in self.rt.alloc();
                ",\"accepted\":true,\"lines\":{lines},\"tokens\":{tokens},\"text\":{text}"
            );
            return print_object(self.rt, input.name, rest);
        }
        self.print_name(input.name)?;
        match format!(in self.rt.alloc();
            "accepted, lines {lines}, tokens {tokens}, bytes of text {text}\n"
        ) {
            Ok(line) => print(self.rt, line.as_bytes()),
            Err(_) => Err(no_memory(self.rt)),
        }
    }

    fn edition_one(&self, name: &[u8], tape: &[u8]) -> Result<(), Trouble> {
        match self.request.operands.value {
            Some(Value::Edition(0)) => self.answered(name, |out| editions::to_2018(tape, out)),
            _ => self.answered(name, |out| editions::to_2024(tape, out)),
        }
    }

    fn offsets_one(&self, name: &[u8], tape: &[u8]) -> Result<(), Trouble> {
        let Some(Value::Number(base)) = self.request.operands.value else {
            return Ok(());
        };
        self.answered(name, |out| offsets::to_offsets(base, tape, out))
    }

    fn addresses_one(&self, name: &[u8], tape: &[u8]) -> Result<(), Trouble> {
        self.answered(name, |out| offsets::from_offsets(tape, out))
    }

    // A bare tape is shown up to the command that is wrong; nothing of it where its text has more than 262,144 bytes.
    fn show_one(&self, tape: &[u8]) -> Result<(), Trouble> {
        let mut out = buffer_of(self.rt, 262144)?;
        let shown = put_listing(tape, self.request.form.exact, &mut out);
        if shown.whole {
            print(self.rt, front(&out, shown.length))?;
        }
        match shown.refusal {
            Some(refused) => Err(Trouble::Refused(refused)),
            None => Ok(()),
        }
    }

    fn page_one(&self, input: Input) -> Result<(), Trouble> {
        let mut out = [0u8; 59137];
        let mut sets = [0u8; 512];
        let told = input.clean(&mut out)?;
        let cautions = input.cautions(&mut sets)?;
        let cleaning = Cleaning {
            rules: input.rules,
            name: input.name,
            raw: input.tape,
            cleaned: front(&out, told.length),
            cautions,
            told,
        };
        self.deliver(input.name, Product::Page(&cleaning))
    }

    // What is done with a tape, or with the text of one.
    fn work(&self, verb: Verb, input: Input) -> Result<(), Trouble> {
        let Input { name, tape, .. } = input;
        match verb {
            Verb::Clean => self.clean_one(input),
            Verb::Counts => self.count_one(input),
            Verb::Cautions => self.caution_one(input),
            Verb::Check => self.check_one(input),
            Verb::Show => self.show_one(tape),
            Verb::Tape => self.tape_one(name, tape),
            Verb::Addresses => self.addresses_one(name, tape),
            Verb::Edition => self.edition_one(name, tape),
            Verb::Offsets => self.offsets_one(name, tape),
            Verb::Page => self.page_one(input),
            Verb::Start => self.start_one(input),
            _ => Ok(()),
        }
    }

    // What was read as the verb takes it: with --filter-form a convention byte stands in front of the tape.
    fn input_of<'b>(&self, name: &'b [u8], bytes: &'b [u8]) -> Result<Input<'b>, Refusal> {
        let rules = self.request.rules;
        if !self.request.form.filter {
            return Ok(Input {
                name,
                tape: bytes,
                rules,
            });
        }
        match bytes {
            [convention @ 0..=2, tape @ ..] => Ok(Input {
                name,
                tape,
                rules: Rules {
                    convention: *convention,
                    ..rules
                },
            }),
            _ => Err(Reason::UnknownConvention.at(0)),
        }
    }

    // Reads a file and does what is asked with it. At most 131,072 bytes are read: an accepted tape has at most 34,561 bytes and no command
    // more than 65,538, so a longer tape is refused at a command that ends before that, and whatever follows, the refusal is the whole
    // file's. (`show`, which does not ask the totals, shows of a longer file the front.)
    fn try_file(&self, verb: Verb, name: &[u8]) -> Result<(), Trouble> {
        let mut buffer = buffer_of(self.rt, 131072)?;
        let n = read_file(self.rt, name, &mut buffer)?;
        let input = self.input_of(name, front(&buffer, n))?;
        match self.work(verb, input) {
            Err(Trouble::Refused(refused)) if verb != Verb::Addresses => {
                if self.request.form.json {
                    print_refused(self.rt, name, input.tape, refused)?;
                }
                Err(tell_in_tape(self.rt, name, input.tape, refused))
            }
            done => done,
        }
    }

    fn one_file(&self, verb: Verb, name: &[u8]) -> Fate {
        fate_of(self.rt, name, self.try_file(verb, name))
    }

    // The file of a verb that takes one: the last operand, where there are more than so many; otherwise standard input.
    fn only_file(&self, verb: Verb, before: u64) -> Outcome {
        let name = match self.request.operands.last {
            Some(k) if before < self.request.operands.count => nth_word(self.words, k),
            _ => b"-",
        };
        self.one_file(verb, name).outcome()
    }

    fn all_files(&self, verb: Verb) -> Outcome {
        if self.request.operands.count == 0 {
            self.one_file(verb, b"-").outcome()
        } else {
            self.each_file(verb)
        }
    }

    // ---- no file is read

    fn laborious(&self) -> Outcome {
        let Some(Value::Number(n)) = self.request.operands.value else {
            return Outcome::Done;
        };
        let name = b"laborious";
        fate_of(
            self.rt,
            name,
            self.answered(name, |out| laborious::laborious(n, out)),
        )
        .outcome()
    }

    fn help(&self) -> Outcome {
        let told = match self.request.operands.value {
            Some(Value::Verb(verb)) => Some(verb),
            _ => None,
        };
        fate_of(self.rt, b"help", help::help(self.rt, told)).outcome()
    }

    fn version(&self) -> Outcome {
        // Kept: the version's text, which the page of crate render has too: by one name the line's end here would be written by itself.
        fate_of(self.rt, b"version", print(self.rt, b"puchkewa 0.16.0\n")).outcome()
    }

    // ---- all verbs

    fn run(&self, verb: Verb) -> Outcome {
        match verb {
            Verb::Clean | Verb::Counts | Verb::Cautions | Verb::Check | Verb::Page => {
                self.all_files(verb)
            }
            Verb::Show | Verb::Tape | Verb::Addresses | Verb::Start => self.only_file(verb, 0),
            Verb::Edition | Verb::Offsets => self.only_file(verb, 1),
            Verb::Laborious => self.laborious(),
            Verb::State => self.state(),
            Verb::Help => self.help(),
            Verb::Version | Verb::VersionOption => self.version(),
        }
    }
}

fn begin(rt: &HostRuntime, words: &[u8]) -> Outcome {
    let request = arguments::parse(words);
    if request.help {
        return fate_of(rt, b"help", help::help(rt, request.verb)).outcome();
    }
    if let Some(fault) = request.fault {
        help::tell_wrong(words, request.verb, fault);
        return Outcome::Misused;
    }
    if request.dated && !request.form.quiet {
        tell(
            b"puchkewa: -e 2018 is -e rust now: numbers are read as the Rust reads them, 010 as ten\n",
        );
    }
    let target = target_of(words, request.goal.destination);
    let call = Call {
        rt,
        words,
        request,
        target,
    };
    match request.verb {
        Some(verb) if !call.is_misused(verb) => {
            call.tell_left(verb);
            call.run(verb)
        }
        _ => Outcome::Misused,
    }
}

fn main(rt: HostRuntime) -> ExitCode {
    let outcome = match vec![in rt.alloc(); 0u8; 524288] {
        Ok(mut words) => match gather(&rt, &mut words) {
            Some(n) => begin(&rt, front(&words, n)),
            None => {
                tell(b"puchkewa: the words have more than 524,288 bytes\n");
                Outcome::Misused
            }
        },
        Err(_) => {
            no_memory(&rt);
            Outcome::Undone
        }
    };
    outcome.status()
}
