// The lock of a file: a file beside it, which one run alone can make.
ghost use Rattle.std.specs.Prelude.{◌≡◌, IfOk, string_bytes};
ghost use Rattle.files.specs.Paths.{lock_of};

use crate::paths::path_of;
use crate::runs::run_name;
use crate::writing::create_new;
use std::fs::{hard_link, remove_file};
use std::io::{Error, Write};

// The name of a path's lock.
pub fn lock_name(rt: &HostRuntime, at: &[u8]) -> Result<String, Error>
    ensures { IfOk result (λ name. string_bytes name ≡ lock_of at.now) }
{
    let path = path_of(at)?;
    Ok(format!(in rt.alloc(); "{path}.lock")?)
}

fn write_run(rt: &HostRuntime, path: &str, run: &str) -> Result<(), Error> {
    let mut file = create_new(rt, path)?;
    file.write_all(run.as_bytes())?;
    file.write_all(b"\n")
}

// Makes the lock, which says whose it is from its first moment on: what is written under another name gets the lock's name too, where
// nothing has that.
fn make_lock(rt: &HostRuntime, lock: &str) -> Result<(), Error> {
    let run = run_name(rt)?;
    let part = format!(in rt.alloc(); "{lock}.part{run}")?;
    let made = match write_run(rt, part.as_str(), run.as_str()) {
        Ok(_) => hard_link(rt, part.as_str(), lock),
        Err(error) => Err(error),
    };
    let _ = remove_file(rt, part.as_str());
    made
}

// Locks a file for this run, and answers the lock's name. Where another run has it the error is that there is such a file.
pub fn lock(rt: &HostRuntime, at: &[u8]) -> Result<String, Error>
    ensures { IfOk result (λ name. string_bytes name ≡ lock_of at.now) }
{
    let name = lock_name(rt, at)?;
    make_lock(rt, name.as_str())?;
    Ok(name)
}
