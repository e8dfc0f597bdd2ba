// A result, which is printed or written to a file.
use crate::Call;
use crate::console::{STDOUT, Trouble, failed};
use crate::index::put_index;
use files::Content;
use render::{Cleaning, Sink, put_page};
use std::io::{Error, Write};

// The bytes of a tape, or the page of a cleaning or the index over pages, which are made while they are written.
#[derive(Clone, Copy)]
pub(crate) enum Product<'a> {
    Bytes(&'a [u8]),
    Page(&'a Cleaning<'a>),
    Index(&'a Call<'a>),
}

// Writes a page to what is open. Where not all could be written the system says why when it is asked for one byte more; where it takes that
// byte, no more than this is known.
fn put_whole<W: Write>(cleaning: &Cleaning, to: &mut W, fd: i32) -> Result<(), Error> {
    let mut sink = Sink { fd, sound: true };
    put_page(&mut sink, cleaning);
    if sink.sound {
        return Ok(());
    }
    to.write_all(b"\n")?;
    Err(Error::other("not all could be written"))
}

impl Content for Product<'_> {
    fn put<W: Write>(&self, to: &mut W, fd: i32) -> Result<(), Error> {
        match self {
            Product::Bytes(bytes) => to.write_all(bytes),
            Product::Page(cleaning) => put_whole(cleaning, to, fd),
            Product::Index(call) => put_index(call, to),
        }
    }
}

impl Product<'_> {
    // To standard output.
    pub(crate) fn print(&self, rt: &HostRuntime) -> Result<(), Trouble> {
        self.put(&mut rt.stdout(), STDOUT)
            .map_err(|error| failed(rt, b"standard output", &error))
    }

    // To a file.
    pub(crate) fn write(&self, rt: &HostRuntime, path: &[u8]) -> Result<(), Trouble> {
        files::write(rt, path, self).map_err(|error| failed(rt, path, &error))
    }
}
