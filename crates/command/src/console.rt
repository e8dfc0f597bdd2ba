// The standard streams: what is read and printed, and what is told on standard error, in the system's words; and how things end.
use answers::Refusal;
use files::{append, front, read_all, read_path};
use std::io::{Error, IsTerminal, Write};
use std::process::ExitCode;

// The numbers of the standard streams.
// Kept: in crates command, filter and replays (for the test programs): crate io takes a stream's number and has no names for them.
pub(crate) const STDOUT: i32 = 1;

pub(crate) const STDERR: i32 = 2;

// Whether a name stands for standard input.
pub(crate) fn is_dash(name: &[u8]) -> bool {
    matches!(name, b"-")
}

// ---- how things end

// Why something was not done: a question refused it, which is told by whoever has the file's name, or was told; or it failed, which was
// told.
#[derive(Clone, Copy)]
pub(crate) enum Trouble {
    Refused(Refusal),
    Told,
    Failed,
}

impl From<Refusal> for Trouble {
    fn from(refused: Refusal) -> Trouble {
        Trouble::Refused(refused)
    }
}

// What became of a file.
#[derive(Clone, Copy, Debug, PartialEq, Eq)]
pub(crate) enum Fate {
    Done,
    Refused,
    Failed,
}

impl Fate {
    // How a run ends that had this one file.
    pub(crate) fn outcome(self) -> Outcome {
        match self {
            Fate::Done => Outcome::Done,
            Fate::Refused | Fate::Failed => Outcome::Undone,
        }
    }
}

// How a run ends: all was done; something was refused or failed; or its words were wrong.
#[derive(Clone, Copy, Debug, PartialEq, Eq)]
pub(crate) enum Outcome {
    Done,
    Undone,
    Misused,
}

impl Outcome {
    // The exit status.
    pub(crate) fn status(self) -> ExitCode {
        match self {
            Outcome::Done => ExitCode::SUCCESS,
            Outcome::Undone => ExitCode::FAILURE,
            Outcome::Misused => ExitCode::from(2),
        }
    }
}

// ---- words on standard error

pub(crate) fn tell(s: &[u8]) {
    io::write_all(STDERR, s);
}

// Takes away what a terminal shows of the progress, so that a line can be told.
pub(crate) fn begin_line(rt: &HostRuntime) {
    if rt.stderr().is_terminal() {
        tell(b"\r\x1b[K");
    }
}

// The name of a file, as it is told at the head of a line.
pub(crate) fn tell_name(rt: &HostRuntime, name: &[u8]) {
    begin_line(rt);
    tell(if is_dash(name) {
        b"standard input"
    } else {
        name
    });
    tell(b": ");
}

// What is wrong with a file, in words.
pub(crate) fn failed_by(rt: &HostRuntime, name: &[u8], words: &[u8]) -> Trouble {
    tell_name(rt, name);
    tell(words);
    tell(b"\n");
    Trouble::Failed
}

// Why a call failed that reads or writes a file: the system's words, without the number in brackets behind them.
pub(crate) fn failed(rt: &HostRuntime, name: &[u8], error: &Error) -> Trouble {
    match format!(in rt.alloc(); "{error}") {
        Ok(words) => {
            let text = words.as_str();
            let reason = text.split_once(" (os error ").map_or(text, |parts| parts.0);
            failed_by(rt, name, reason.as_bytes())
        }
        Err(_) => failed_by(rt, name, b"no memory is left to say why"),
    }
}

pub(crate) fn no_memory(rt: &HostRuntime) -> Trouble {
    failed_by(rt, b"puchkewa", b"no memory is left")
}

// ---- buffers

// A buffer of so many bytes, all 0. What a tape must fit into is on the heap: to check a function with a local array takes some 2.4 KB of
// memory for each byte of the array.
pub(crate) fn buffer_of(rt: &HostRuntime, n: usize) -> Result<Vec<u8>, Trouble> {
    vec![in rt.alloc(); 0u8; n].map_err(|_| no_memory(rt))
}

// ---- reading

// Reads what a path names, or standard input by the name -, and answers how many bytes.
pub(crate) fn read_file(
    rt: &HostRuntime,
    name: &[u8],
    buffer: &mut [u8],
) -> Result<usize, Trouble> {
    let read = if is_dash(name) {
        read_all(&mut rt.stdin(), buffer)
    } else {
        read_path(rt, name, buffer)
    };
    read.map_err(|error| failed(rt, name, &error))
}

// ---- standard output

pub(crate) fn print(rt: &HostRuntime, bytes: &[u8]) -> Result<(), Trouble> {
    rt.stdout()
        .write_all(bytes)
        .map_err(|error| failed(rt, b"standard output", &error))
}

pub(crate) fn print_decimal(rt: &HostRuntime, n: u64) -> Result<(), Trouble> {
    let mut digits = [0u8; 20];
    let k = io::decimal(n, &mut digits);
    print(rt, front(&digits, k))
}

// ---- a path put together

// Puts the path of a file in a folder, if it fits.
pub(crate) fn put_path(dir: &[u8], base: &[u8], path: &mut [u8]) -> Option<usize> {
    let a = append(dir, path, 0)?;
    let b = append(b"/", path, a)?;
    append(base, path, b)
}
