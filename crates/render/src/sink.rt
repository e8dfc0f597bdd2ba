// Where a page goes while it is written piece by piece. Texts reach it in cells, escaped.
ghost use Rattle.std.specs.Prelude.{◌≡◌};

use text::Cursor;

// What is written to, and whether all pieces so far were written.
// Kept: a flag, not a `Result`: `put_page` promises of it that a sink that failed before is still failed, and an answer has no before.
#[derive(Clone, Copy, Debug)]
pub struct Sink {
    pub fd: i32,
    pub sound: bool,
}

// The number of an open file.
#[derive(Clone, Copy, Debug)]
pub(crate) struct Output {
    pub fd: i32,
}

// A piece was not written. Nothing more is after it, so that the system's reason stays.
#[derive(Clone, Copy, Debug, PartialEq, Eq)]
pub(crate) struct Unwritten;

pub(crate) fn put(out: Output, bytes: &[u8]) -> Result<(), Unwritten> {
    if io::write_all(out.fd, bytes) {
        Ok(())
    } else {
        Err(Unwritten)
    }
}

pub(crate) fn put_number(out: Output, n: u64) -> Result<(), Unwritten> {
    let mut digits = [0u8; 20];
    let k = io::decimal(n, &mut digits);
    put(out, &digits[..k])
}

// How many there are of something, as a number that is put.
// Kept: std has no `From` of usize for u64, and the error of `try_from`, which cannot come, would want an answer: no plainer.
pub fn count_of(n: usize) -> u64
    ensures { result ≡ n }
{
    n as u64
}

// In hexadecimal, eight digits at least.
pub(crate) fn put_hex(out: Output, n: u64) -> Result<(), Unwritten> {
    let mut digits = [0u8; 16];
    let k = io::hex(n, 8, &mut digits);
    put(out, &digits[..k])
}

// ---- texts: they reach the page only here and as the tokens of a line (rows.rt), escaped

// A text outside of any cell: a file's name, which has at most 4,096 bytes with its path.
pub(crate) fn put_escaped(out: Output, text: &[u8]) -> Result<(), Unwritten> {
    let mut bytes = [0u8; 24576];
    if 4096 < text.len() {
        return Ok(());
    }
    let mut escaped = Cursor::new(&mut bytes, 0);
    page::put_escaped(text, &mut escaped);
    let n = escaped.at;
    put(out, bytes.get(..n).unwrap_or_default())
}

// A text in its cell. A text of a tape has at most 65,535 bytes, and so has a file's name.
pub(crate) fn put_text(out: Output, kind: u64, text: &[u8]) -> Result<(), Unwritten> {
    let mut cells = [0u8; 458780];
    if 65535 < text.len() {
        return Ok(());
    }
    let mut cell = Cursor::new(&mut cells, 0);
    page::put_cells(kind, text, &mut cell);
    let n = cell.at;
    put(out, cells.get(..n).unwrap_or_default())
}
