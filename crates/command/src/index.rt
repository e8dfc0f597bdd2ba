// The index over the pages of a folder: a row for each file, with its lines before and after, how many of these are cautioned, and whether
// its calls are kept, or with the words that it was refused with. A row of a page is a link to it. Files are read and cleaned once more
// for their rows.
use crate::Call;
use crate::console::is_dash;
use crate::refusals::words_of;
use answers::Refusal;
use arguments::{Request, base_name, next_word};
use caution_words::count_cautioned;
use files::{front, read_path};
use std::io::{Error, Write};
use tallies::{calls_stay, count_sizes};
use text::Cursor;

// Writes a text of HTML, in parts.
fn put_escaped<W: Write>(text: &[u8], to: &mut W) -> Result<(), Error> {
    for part in text.chunks(512) {
        let mut page = [0u8; 4096];
        if part.len() <= 512 {
            let mut out = Cursor::new(&mut page, 0);
            page::put_escaped(part, &mut out);
            let n = out.at;
            to.write_all(front(&page, n))?;
        }
    }
    Ok(())
}

// A digit of an escape in a link.
fn digit_of(b: u8) -> u8 {
    b"0123456789ABCDEF"
        .get(usize::from(b % 16))
        .copied()
        .unwrap_or(b'0')
}

// Writes a name as it stands in a link.
fn put_link<W: Write>(name: &[u8], to: &mut W) -> Result<(), Error> {
    for b in name {
        if b.is_ascii_alphanumeric() || matches!(b, b'-' | b'_' | b'.' | b'~') {
            to.write_all(&[*b])?;
        } else {
            to.write_all(&[b'%', digit_of(*b / 16), digit_of(*b)])?;
        }
    }
    Ok(())
}

fn put_number<W: Write>(n: usize, to: &mut W) -> Result<(), Error> {
    let mut digits = [0u8; 20];
    let k = io::decimal(n as u64, &mut digits);
    to.write_all(b"<td class=d>")?;
    to.write_all(front(&digits, k))
}

// The row of a file that was cleaned.
fn put_cleaned<W: Write>(
    name: &[u8],
    raw: &[u8],
    cleaned: &[u8],
    cautions: &[u8],
    to: &mut W,
) -> Result<(), Error> {
    to.write_all(b"<tr><td><a href=\"")?;
    put_link(base_name(name), to)?;
    to.write_all(b".html\">")?;
    put_escaped(name, to)?;
    to.write_all(b"</a>")?;
    put_number(count_sizes(raw).lines, to)?;
    put_number(count_sizes(cleaned).lines, to)?;
    put_number(count_cautioned(cautions), to)?;
    to.write_all(if calls_stay(raw, cleaned) {
        b"<td class=y>kept<td>\n"
    } else {
        b"<td class=x>not kept<td>\n"
    })
}

// The row of a file that has no page: its name, and why.
fn put_bare<W: Write>(name: &[u8], words: &[u8], to: &mut W) -> Result<(), Error> {
    to.write_all(b"<tr class=r><td>")?;
    put_escaped(name, to)?;
    to.write_all(b"<td><td><td><td><td>")?;
    put_escaped(words, to)?;
    to.write_all(b"\n")
}

fn put_refused<W: Write>(
    call: &Call,
    name: &[u8],
    tape: &[u8],
    refused: Refusal,
    to: &mut W,
) -> Result<(), Error> {
    let number = refused.reason.number();
    let place = refused.place;
    let head = format!(in call.rt.alloc(); "refused {number} at {place}: ")?;
    to.write_all(b"<tr class=r><td>")?;
    put_escaped(name, to)?;
    to.write_all(b"<td><td><td><td><td>")?;
    to.write_all(head.as_bytes())?;
    put_escaped(words_of(tape, refused), to)?;
    to.write_all(b"\n")
}

fn put_row<W: Write>(call: &Call, name: &[u8], to: &mut W) -> Result<(), Error> {
    let mut buffer = vec![in call.rt.alloc(); 0u8; 131072]?;
    let mut out = [0u8; 59137];
    let mut sets = [0u8; 512];
    if is_dash(name) {
        return put_bare(name, b"standard input has no page in a folder", to);
    }
    let Ok(n) = read_path(call.rt, name, &mut buffer) else {
        return put_bare(name, b"could not be read", to);
    };
    let bytes = front(&buffer, n);
    let input = match call.input_of(name, bytes) {
        Ok(input) => input,
        Err(refused) => return put_refused(call, name, bytes, refused, to),
    };
    let cleaned = match input.clean(&mut out) {
        Ok(f) => front(&out, f.length),
        Err(refused) => return put_refused(call, name, input.tape, refused, to),
    };
    match input.cautions(&mut sets) {
        Ok(cautions) => put_cleaned(name, input.tape, cleaned, cautions, to),
        Err(refused) => put_refused(call, name, input.tape, refused, to),
    }
}

// Writes the whole index.
pub(crate) fn put_index<W: Write>(call: &Call, to: &mut W) -> Result<(), Error> {
    to.write_all(
        b"<!doctype html>\n<html lang=en>\n<meta charset=utf-8>\n\
          <meta http-equiv=Content-Security-Policy content=\"default-src 'none';style-src 'unsafe-inline'\">\n\
          <meta name=viewport content=\"width=device-width,initial-scale=1\">\n<title>Cleaned listings - Puchkewa</title>\n\
          <style>\n\
          :root{color-scheme:light dark;--ink:#1b2330;--soft:#667080;--rule:#dde2e9;--back:#fff;--link:#1a5fd0;--good:#1c7a3d;\
          --bad:#a3301f}\n\
          @media(prefers-color-scheme:dark){:root{--ink:#e6e9ee;--soft:#9aa5b4;--rule:#39424f;--back:#14181e;--link:#7fb0ff;--good:#6fce8e;\
          --bad:#ff9a86}}\n\
          body{font:14px/1.5 system-ui,'Segoe UI','DejaVu Sans',sans-serif;color:var(--ink);background:var(--back);margin:0 auto;\
          max-width:1100px;padding:20px 24px 60px}\n\
          h1{font-size:20px}table{border-collapse:collapse;width:100%}\n\
          th{text-align:left;font-weight:600;border-bottom:2px solid var(--ink);padding:4px 10px 4px 0}\n\
          td{border-bottom:1px solid var(--rule);padding:4px 10px 4px 0;vertical-align:top;overflow-wrap:anywhere}\
          th:first-child,th:last-child{width:34%}\n\
          td.d{font-variant-numeric:tabular-nums}a{color:var(--link)}.y{color:var(--good)}.x,.r{color:var(--bad)}\n\
          @media(max-width:700px){body{padding:12px}td,th{padding-right:6px}}\n\
          </style>\n<h1>Cleaned listings</h1>\n<table>\n\
          <thead><tr><th>File<th>Lines before<th>after<th>cautioned<th>Calls<th>Refused\n<tbody>\n",
    )?;
    let mut s = Request::begin();
    let mut left = call.words;
    for k in 0..u64::MAX {
        let Some((word, rest)) = next_word(left) else {
            break;
        };
        s = s.step(k, word);
        if s.operands.last == Some(k) {
            put_row(call, word, to)?;
        }
        left = rest;
    }
    to.write_all(b"</table>\n</html>\n")
}
