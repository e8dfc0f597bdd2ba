// The questions of a tape and its listing, in tables, in one pass: a word for each token and each line, and by the number of the line its
// address and its marks. All texts are parts of the tape. The lines are laid as records first; the line words are made of them.
// Kept: the four tables stay parameters of their own, so that a caller may own them in any way: crate clean has a struct of the four, whose
// `load` is this one, and lends its fields apart afterwards. A struct here would ask of callers that they have just that one.
// Kept: addresses and marks are two tables, not one of pairs, which would be no plainer: the rounds join the marks and never see an
// address. With one table they would have to promise besides that the addresses stand.
ghost use Rattle.std.specs.Prelude.{◌≡◌, ◌+◌, ◌≤◌, ◌<◌, length, get_or, set};
ghost use Rattle.lines.specs.Words.{word, Recoded};
ghost use Rattle.tape.specs.Questions.{checked, sizes_in};
ghost use Rattle.tables.specs.Memo.{Memory};
ghost use Rattle.tables.specs.Records.{Fitting, Holding, Marking, RecordedIf, records_after, Lays, TokenPassed, TakesToken, Worded};
ghost use Rattle.tables.specs.Records.{blank, longer_by_one, state_of, Loadable, LoadsKnown, Loads};
ghost use Rattle.tables.specs.Tables.{LoadedIf};
ghost use Rattle.reference.specs.Questions.{let_passed◌then◌, Passed, read};
ghost use Rattle.lines.specs.Marks.{highs_of, lows_of};

use crate::memo::{EMPTY, PLACES, recall, remember};
use crate::records::{LineRecord, NO_MARKS, line_at, store_line};
use answers::Refusal;
use lines::codes::coded;
use lines::marks::Marks;
use lines::words::{IN_TAPE, kind, len, line_word, token_word};
use tape::commands::{Command, size_of};
use tape::questions::{NONE, Totals, count_in, read_command};
use tape::reader::TapeReader;

// Where the loading goes on: the offset of the next command, and what was read before it.
#[derive(Clone, Copy, Debug, PartialEq, Eq)]
pub struct LoadState {
    pub at: usize,
    pub totals: Totals,
}

// ---- one command that passed the questions

// The line at an index has one token more.
fn lengthen(records: &mut [LineRecord], at: usize)
    requires { (at < length records.old) × ((get_or records.old at blank).count < 2047) }
    ensures { records.new ≡ set records.old at (longer_by_one (get_or records.old at blank)) }
{
    let line = line_at(records, at);
    store_line(
        records,
        at,
        LineRecord {
            count: line.count + 1,
            ..line
        },
    );
}

// Lays a command in the records: that of a line behind those of the lines before it; in the last line's one token more, or the marks of a
// 03 joined to its own.
fn lay(command: Command, totals: Totals, records: &mut [LineRecord])
    requires { Lays command totals records.old }
    ensures { records.new ≡ records_after command totals records.old }
{
    match command {
        Command::Addressed { address, indent } => store_line(
            records,
            totals.lines,
            LineRecord {
                address: Some(address),
                indent,
                first: totals.tokens,
                count: 0,
                marks: Marks {
                    low: address,
                    high: address,
                },
            },
        ),
        Command::Plain { indent } => store_line(
            records,
            totals.lines,
            LineRecord {
                address: None,
                indent,
                first: totals.tokens,
                count: 0,
                marks: NO_MARKS,
            },
        ),
        Command::Marked { low, high } => {
            let line = line_at(records, totals.lines - 1);
            store_line(
                records,
                totals.lines - 1,
                LineRecord {
                    marks: line.marks.joined(Marks { low, high }),
                    ..line
                },
            );
        }
        Command::Token { .. } => lengthen(records, totals.lines - 1),
        Command::End => {}
    }
}

// The word of a token, a Register's with the code of its family. It is remembered.
fn learn(
    tape: &[u8],
    at: usize,
    kind: u64,
    count: usize,
    keys: &mut [u64; PLACES],
    words: &mut [u64; PLACES],
) -> u64
    requires { TokenPassed tape.now at kind count × Memory keys.old words.old }
    ensures worded { Recoded tape.now (word kind 0 (at + 3) count) result }
    ensures memory { Memory keys.new words.new }
{
    let w = coded(tape, token_word(kind, IN_TAPE, at + 3, count));
    remember(tape, at, w, keys, words);
    w
}

// Adds a token's word behind the tokens so far.
fn add_token(
    tape: &[u8],
    at: usize,
    command: Command,
    totals: Totals,
    tokens: &mut [u64],
    keys: &mut [u64; PLACES],
    words: &mut [u64; PLACES],
)
    requires { TakesToken tape.now at command totals tokens.old × Memory keys.old words.old }
    ensures worded { Worded tape.now at command totals tokens.old tokens.new }
    ensures memory { Memory keys.new words.new }
{
    if let Command::Token { kind, count } = command {
        tokens[totals.tokens] = learn(tape, at, kind, count, keys, words);
    }
}

// ---- the next command

// Takes the command at the reader's offset if it is a token that the memo knows and one more fits the limits: it passes all questions.
// (24,571 bytes and the five of the longest are 24,576.)
fn load_known(
    reader: TapeReader<'_>,
    totals: Totals,
    tokens: &mut [u64],
    records: &mut [LineRecord],
    keys: &[u64; PLACES],
    words: &[u64; PLACES],
) -> Option<LoadState>
    requires { Loadable reader.tape.now (state_of reader totals) tokens.old records.old × Memory keys.now words.now }
    ensures { LoadsKnown reader.entry.tape.now (state_of reader.entry totals) tokens.old records.old tokens.new records.new result }
{
    if totals.lines == 0 || 1024 <= totals.tokens || 24571 < totals.text {
        return None;
    }
    let w = recall(reader.tape, reader.at, keys, words)?;
    let command = Command::Token {
        kind: kind(w),
        count: len(w),
    };
    tokens[totals.tokens] = w;
    lengthen(records, totals.lines - 1);
    Some(LoadState {
        at: reader.at + size_of::<false>(command),
        totals: count_in(command, totals),
    })
}

// Asks the questions of the command at the reader's offset, and takes it; at FF there is none to take.
fn load_asked(
    reader: TapeReader<'_>,
    totals: Totals,
    tokens: &mut [u64],
    records: &mut [LineRecord],
    keys: &mut [u64; PLACES],
    words: &mut [u64; PLACES],
) -> Result<Option<LoadState>, Refusal>
    requires { Loadable reader.tape.now (state_of reader totals) tokens.old records.old × Memory keys.old words.old }
    ensures loads { Loads reader.entry.tape.now (state_of reader.entry totals) tokens.old records.old tokens.new records.new result }
    ensures memory { Memory keys.new words.new }
{
    let step = read_command::<false>(reader, totals)?;
    if step.command.is_end() {
        return Ok(None);
    }
    add_token(
        reader.tape,
        reader.at,
        step.command,
        totals,
        tokens,
        keys,
        words,
    );
    lay(step.command, totals, records);
    Ok(Some(LoadState {
        at: step.next,
        totals: step.totals,
    }))
}

// Takes the command at the reader's offset, or says which question refuses it.
fn load_next(
    reader: TapeReader<'_>,
    totals: Totals,
    tokens: &mut [u64],
    records: &mut [LineRecord],
    keys: &mut [u64; PLACES],
    words: &mut [u64; PLACES],
) -> Result<Option<LoadState>, Refusal>
    requires { Loadable reader.tape.now (state_of reader totals) tokens.old records.old × Memory keys.old words.old }
    ensures loads { Loads reader.entry.tape.now (state_of reader.entry totals) tokens.old records.old tokens.new records.new result }
    ensures memory { Memory keys.new words.new }
{
    if let Some(next) = load_known(reader, totals, tokens, records, keys, words) {
        return Ok(Some(next));
    }
    load_asked(reader, totals, tokens, records, keys, words)
}

// ---- the whole tape

// Asks the questions of a tape and loads its lines: a record for each line and a word for each token.
// Kept: document 01 names the forms. "A tape reader holds the tape and its offset": one moves from the first command to the last. "Line
// records are lent as a slice of records" to a few thin functions.
pub fn fill(tape: &[u8], tokens: &mut [u64], records: &mut [LineRecord]) -> Result<Totals, Refusal>
    requires { (1024 ≤ length tokens.old) × (256 ≤ length records.old) }
    ensures asked { checked result ≡ (let_passed (read tape.now) then λ lines. Passed (sizes_in lines)) }
    ensures recorded { RecordedIf tape.now tokens.new records.new result }
{
    let mut keys = [EMPTY; PLACES];
    let mut words = [0; PLACES];
    let mut reader = TapeReader::new(tape);
    let mut totals = NONE;
    while let Some(next) = load_next(reader, totals, tokens, records, &mut keys, &mut words)? {
        reader = reader.moved(next.at);
        totals = next.totals;
    }
    Ok(totals)
}

// Writes the words, the addresses and the marks of the records into the tables.
// Kept: whether a line has an address is a bit of its word, and 0 stands in the table where it has none. `load` and `write`, which are
// public, promise what listing stands in the tables by the definitions `address_in` and `Reading` of crate lines, which read the bit and
// the addresses as numbers. A table of `Option`s would say it a second time, beside the bit.
fn spread(records: &[LineRecord], lines: &mut [u64], addresses: &mut [u64], marks: &mut [Marks])
    requires { (length records.now ≤ 256) × Fitting records.now (length records.now) × (256 ≤ length lines.old)
        × (256 ≤ length addresses.old) × (256 ≤ length marks.old) }
    ensures { Holding records.now (length records.now) lines.new addresses.new
        × Marking records.now (length records.now) (lows_of marks.new) (highs_of marks.new) }
{
    for (k, r) in records.iter().enumerate() {
        lines[k] = line_word(r.first, r.count, r.indent, r.address.is_some(), k);
        addresses[k] = r.address.unwrap_or(0);
        marks[k] = r.marks;
    }
}

// Asks the questions of a tape and fills the tables with its listing. Where a question refuses it, what then stands in the tables is not
// said; what stands in the records is said in neither case.
pub fn load(
    tape: &[u8],
    tokens: &mut [u64],
    lines: &mut [u64],
    addresses: &mut [u64],
    marks: &mut [Marks],
    records: &mut [LineRecord],
) -> Result<Totals, Refusal>
    requires { (1024 ≤ length tokens.old) × (256 ≤ length lines.old) × (256 ≤ length addresses.old) × (256 ≤ length marks.old)
        × (256 ≤ length records.old) }
    ensures asked { checked result ≡ (let_passed (read tape.now) then λ lines. Passed (sizes_in lines)) }
    ensures loaded { LoadedIf tape.now tokens.new lines.new addresses.new (lows_of marks.new) (highs_of marks.new) result }
{
    let totals = fill(tape, tokens, records)?;
    spread(&records[..totals.lines], lines, addresses, marks);
    Ok(totals)
}
