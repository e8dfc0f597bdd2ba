// What names a run of the program, and whether its process is gone.
ghost use Rattle.std.specs.Prelude.{◌≡◌, IsTrue, All};
ghost use Rattle.std.specs.Char.{IsAsciiDigit};
ghost use Rattle.files.specs.Paths.{process_in};

use std::alloc::AllocError;
use std::env::var;
use std::fs::metadata;
use std::process::id;
use std::random::RandomSource;

// A number that no other run is likely to have.
fn chance(rt: &HostRuntime) -> u64 {
    let mut bytes = [0u8; 8];
    let _ = rt.fill_bytes(&mut bytes);
    u64::from_le_bytes(bytes)
}

// What names this run, the number of a process first: what the wrapper says, which takes away the files that a signal leaves; otherwise
// this process and a number by chance.
pub(crate) fn run_name(rt: &HostRuntime) -> Result<String, AllocError> {
    match var(rt, "PUCHKEWA_RUN") {
        Ok(name) => Ok(name),
        Err(_) => {
            let process = id(rt.process());
            let number = chance(rt);
            format!(in rt.alloc(); "{process}-{number}")
        }
    }
}

// Whether no process has this number, in digits.
pub fn is_gone(rt: &HostRuntime, number: &str) -> bool
    ensures { IsTrue result → All IsAsciiDigit number.now }
{
    if number.is_empty() || !number.bytes().all(|b| b.is_ascii_digit()) {
        return false;
    }
    match format!(in rt.alloc(); "/proc/{number}") {
        Ok(path) => metadata(rt, path.as_str()).is_err(),
        Err(_) => false,
    }
}

// The process that the name of a run tells.
pub fn process_of(run: &str) -> &str
    ensures { result.now ≡ process_in run.now }
{
    match run.split_once('-') {
        Some((number, _)) => number,
        None => run,
    }
}
