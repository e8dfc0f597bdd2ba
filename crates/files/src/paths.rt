// Paths: as text, put together in a buffer, and what tells the file that one names.
ghost use Rattle.std.specs.Prelude.{◌≡◌, ◌+◌, length, IsSome};
ghost use Rattle.std.specs.Str.{IsUtf8};
ghost use Rattle.files.specs.Paths.{appended, end_of, IsPath};

use std::fs::metadata;
use std::io::{Error, ErrorKind};
use std::os::unix::fs::MetadataExt;

// A path as text; what is not UTF-8 names no file that std can open.
pub fn path_of(name: &[u8]) -> Result<&str, Error>
    ensures { IsPath name.now result }
{
    std::str::from_utf8(name).map_err(|_| Error::from(ErrorKind::InvalidInput))
}

// What tells a regular file that a path names from every other.
pub fn file_at(rt: &HostRuntime, path: &[u8]) -> Option<(u64, u64)>
    ensures { IsSome result → IsUtf8 path.now }
{
    let found = metadata(rt, path_of(path).ok()?).ok()?;
    if found.is_file() {
        Some((found.dev(), found.ino()))
    } else {
        None
    }
}

// Puts a text at `at` of a buffer, if it fits, and answers where it ends.
// Kept: a buffer, and where it ends: its size is what makes a path too long. A Vec would want that test beside it, and an answer where no
// memory is left: no plainer.
pub fn append(s: &[u8], buffer: &mut [u8], at: usize) -> Option<usize>
    ensures end { result ≡ end_of (length buffer.old) at (length s.now) }
    ensures bytes { buffer.new ≡ appended buffer.old at s.now }
{
    match at.checked_add(s.len()) {
        Some(end) if end <= buffer.len() => {
            buffer[at..end].copy_from_slice(s);
            Some(end)
        }
        _ => None,
    }
}
