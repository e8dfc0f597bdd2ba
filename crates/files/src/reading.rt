// What a file holds, read into a buffer.
ghost use Rattle.std.specs.Prelude.{◌≡◌};
ghost use Rattle.std.specs.Io.{ReadsAtMost};
ghost use Rattle.files.specs.Paths.{front_of};

use crate::paths::path_of;
use std::fs::File;
use std::io::{Error, Read};

// The first n bytes; none where there are not so many.
pub fn front(bytes: &[u8], n: usize) -> &[u8]
    ensures { result.now ≡ front_of bytes.now n }
{
    bytes.get(..n).unwrap_or(&bytes[..0])
}

// Reads until the file ends or the buffer is full; a full buffer is not read into. Each turn but the last reads a byte.
pub fn read_all<R: Read>(from: &mut R, buffer: &mut [u8]) -> Result<usize, Error>
    ensures { ReadsAtMost result buffer.new }
{
    let mut at = 0;
    while at < buffer.len() {
        let n = from.read(&mut buffer[at..])?;
        if n == 0 {
            break;
        }
        at += n;
    }
    Ok(at)
}

// Reads what a path names, and answers how many bytes.
pub fn read_path(rt: &HostRuntime, name: &[u8], buffer: &mut [u8]) -> Result<usize, Error>
    ensures { ReadsAtMost result buffer.new }
{
    let mut file = File::open(rt, path_of(name)?)?;
    read_all(&mut file, buffer)
}
