// A file is there whole or not at all: its bytes stand under another name beside it until all are written. What is no regular file (a
// device, a pipe) is written to as it is; one that may not be written is not replaced.
ghost use Rattle.std.specs.Prelude.{OnOk};
ghost use Rattle.std.specs.Str.{IsUtf8};

use crate::paths::path_of;
use crate::runs::run_name;
use std::alloc::AllocError;
use std::fs::{File, OpenOptions, metadata, remove_file, rename};
use std::io::{Error, ErrorKind, Seek, Write};
use std::os::fd::AsRawFd;

// What is written.
pub trait Content {
    // Writes it to what is open, which has that number too.
    fn put<W: Write>(&self, to: &mut W, fd: i32) -> Result<(), Error>;
}

fn put_file<C: Content>(content: &C, file: &mut File) -> Result<(), Error> {
    let fd = file.as_raw_fd();
    content.put(file, fd)
}

// Writes it to what a path names.
pub fn write<C: Content>(rt: &HostRuntime, path: &[u8], content: &C) -> Result<(), Error>
    ensures { OnOk result (IsUtf8 path.now) }
{
    let path = path_of(path)?;
    match open_stream(rt, path)? {
        Some(mut stream) => put_file(content, &mut stream),
        None => replace(rt, path, content),
    }
}

// A new file gets the path's name once it is whole, with the mode of what it replaces; where it cannot, it goes.
fn replace<C: Content>(rt: &HostRuntime, path: &str, content: &C) -> Result<(), Error> {
    let part = part_name(rt, path)?;
    let mut file = create_new(rt, part.as_str())?;
    let written = match keep_mode(rt, path, &file) {
        Ok(_) => put_file(content, &mut file),
        Err(error) => Err(error),
    };
    drop(file);
    let named = match written {
        Ok(_) => rename(rt, part.as_str(), path),
        Err(error) => Err(error),
    };
    if named.is_err() {
        let _ = remove_file(rt, part.as_str());
    }
    named
}

// The name beside a path under which its new bytes are written first.
fn part_name(rt: &HostRuntime, path: &str) -> Result<String, AllocError> {
    let run = run_name(rt)?;
    format!(in rt.alloc(); "{path}.part{run}")
}

// Gives a new file the mode of what a path names, if anything is there.
fn keep_mode(rt: &HostRuntime, path: &str, file: &File) -> Result<(), Error> {
    match metadata(rt, path) {
        Ok(there) => file.set_permissions(there.permissions()),
        Err(_) => Ok(()),
    }
}

// A new file, which is there for nobody else.
pub(crate) fn create_new(rt: &HostRuntime, path: &str) -> Result<File, Error> {
    OpenOptions::new()
        .write(true)
        .create_new(true)
        .open(rt, path)
}

// A file that is there, to be written from its first byte on.
fn open_update(rt: &HostRuntime, path: &str) -> Result<File, Error> {
    OpenOptions::new().read(true).write(true).open(rt, path)
}

// Whether what is open is no regular file: a device, a pipe.
fn is_stream(file: &mut File, path: &str) -> bool {
    path.starts_with("/dev/") || file.stream_position().is_err()
}

// What a path names, open to be written, where that is no regular file; none where there is such a file, or nothing.
fn open_stream(rt: &HostRuntime, path: &str) -> Result<Option<File>, Error> {
    match open_update(rt, path) {
        Ok(mut file) => Ok(if is_stream(&mut file, path) {
            Some(file)
        } else {
            None
        }),
        Err(error) if error.kind() == ErrorKind::NotFound => Ok(None),
        Err(error) => Err(error),
    }
}
