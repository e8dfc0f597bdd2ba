// The rows of the page: each raw line, and beside it what became of it. What a raw line came into is asked of crate sources, line by line;
// what that makes of it is crate tallies'.
ghost use Rattle.std.specs.Prelude.{◌≡◌};
ghost use Rattle.render.specs.Rows.{class_of, sign_of};

use crate::Cleaning;
use crate::sink::{Output, Unwritten, count_of, put, put_hex, put_number};
use caution_words::set_at;
use sources::came_into;
use tallies::{Fate, Line, Lines, fate_of, first_addressed, line_at};

// ---- what a raw line came into

// What a raw line came into: the finished line q where flag q is 1, and the one that it became itself, if it is not gone.
#[derive(Clone, Copy)]
struct Trace {
    flags: [u8; 256],
    became: Option<usize>,
}

// Asks of raw line k. Line k alone has an address in the copy that is cleaned, so the finished line that has one is line k. Where the call
// is refused, the flags and the output stay zero, and there is no such line.
fn ask(cleaning: &Cleaning, k: usize) -> Trace {
    let mut flags = [0u8; 256];
    let mut copy = [0u8; 34561];
    let mut work_a = [0u8; 49152];
    let mut work_b = [0u8; 49152];
    let mut out = [0u8; 59137];
    let _ = came_into(
        cleaning.rules,
        cleaning.raw,
        k,
        &mut copy,
        &mut work_a,
        &mut work_b,
        &mut out,
        &mut flags,
    );
    Trace {
        flags,
        became: first_addressed(&out),
    }
}

// The finished lines that are flagged, from 1, each behind a blank.
fn put_flagged(out: Output, flags: &[u8]) -> Result<(), Unwritten> {
    for (flag, q) in flags.iter().zip(1..=256) {
        if *flag == 1 {
            put(out, b" ")?;
            put_number(out, q)?;
        }
    }
    Ok(())
}

// ---- cells

// An address, if the line has one.
fn put_address(out: Output, address: Option<u64>) -> Result<(), Unwritten> {
    match address {
        Some(address) => put_hex(out, address),
        None => Ok(()),
    }
}

// The lowest and the highest address of marks, if the line has any.
fn put_marks(out: Output, marks: Option<(u64, u64)>) -> Result<(), Unwritten> {
    let Some((low, high)) = marks else {
        return Ok(());
    };
    put_hex(out, low)?;
    put(out, b"..")?;
    put_hex(out, high)
}

// The tokens of a line in their cells, by way of a buffer that has room for them.
// Kept: a function apart from the buffer's: tried as one, and the proof did not close, since the checker ran out of stack at the array of
// that size.
fn put_tokens_by(out: Output, tokens: &[u8], cells: &mut [u8]) -> Result<(), Unwritten> {
    if cells.len() / 12 < tokens.len() {
        return Ok(());
    }
    let n = page::put_line(tokens, cells);
    put(out, cells.get(..n).unwrap_or_default())
}

// The tokens of a line in their cells. What stands from them on in an accepted or a cleaned tape has at most 59,137 bytes, and cells at
// most twelve times so many.
fn put_tokens(out: Output, line: Line) -> Result<(), Unwritten> {
    let mut cells = [0u8; 709644];
    put_tokens_by(out, line.as_bytes(), &mut cells)
}

// ---- rows

// The class of a raw line's row: its colours go by it.
fn class_of(fate: Fate) -> &'static [u8]
    ensures { result.now ≡ class_of fate }
{
    match fate {
        Fate::Gone => b"gone",
        Fate::Rewritten => b"changed",
        Fate::Cut => b"cut",
        Fate::Kept => b"kept",
    }
}

// The sign before a raw line.
fn sign_of(fate: Fate) -> &'static [u8]
    ensures { result.now ≡ sign_of fate }
{
    match fate {
        Fate::Gone => b"&minus;",
        Fate::Rewritten => b"~",
        Fate::Cut => b"/",
        Fate::Kept => b"",
    }
}

// A raw line, number k from 0; the finished lines that it came into are flagged.
fn put_raw(out: Output, fate: Fate, line: Line, k: usize, flags: &[u8]) -> Result<(), Unwritten> {
    let number = count_of(k.saturating_add(1));
    put(out, b"<tr class=")?;
    put(out, class_of(fate))?;
    put(out, b" data-k=")?;
    put_number(out, number)?;
    put(out, b" data-into=\"")?;
    put_flagged(out, flags)?;
    put(out, b"\"><td class=n>")?;
    put_number(out, number)?;
    put(out, b"</td><td class=a>")?;
    put_address(out, line.address)?;
    put(out, b"</td><td class=s>")?;
    put(out, sign_of(fate))?;
    put(out, b"</td><td class=c style=\"--d:")?;
    put_number(out, line.indent)?;
    put(out, b"\">")?;
    put_tokens(out, line)?;
    put(out, b"</td><td class=i>")
}

// Behind a raw line that is gone: which cleaned lines it came into.
fn put_arrow(out: Output, flags: &[u8]) -> Result<(), Unwritten> {
    put(out, b"&rarr;")?;
    put_flagged(out, flags)?;
    put(
        out,
        b"</td><td class=m></td><td class=o></td><td class=p></td></tr>\n",
    )
}

// What names the words of a cautioned line, for whoever is told of the line.
fn put_described(out: Output, set: u16, number: u64) -> Result<(), Unwritten> {
    if set == 0 {
        return Ok(());
    }
    put(out, b" aria-describedby=w")?;
    put_number(out, number)
}

// The words of a cautioned line, in a row of their own below it.
fn put_words(out: Output, set: u16, number: u64) -> Result<(), Unwritten> {
    if set == 0 {
        return Ok(());
    }
    let mut words = [0u8; 15000];
    let n = page::put_cautions(set, &mut words);
    put(
        out,
        b"<tr class=w><td colspan=5></td><td class=m></td><td class=w colspan=2 id=w",
    )?;
    put_number(out, number)?;
    put(out, b">")?;
    put(out, words.get(..n).unwrap_or_default())?;
    put(out, b"</td></tr>\n")
}

// A cleaned line, number q from 0, with its marks, and with a sign where it has cautions.
fn put_cleaned(out: Output, line: Line, q: usize, set: u16) -> Result<(), Unwritten> {
    let number = count_of(q.saturating_add(1));
    put(out, b"</td><td class=m>")?;
    put(out, if set == 0 { b"" } else { b"<b>!</b>" })?;
    put_number(out, number)?;
    put(out, b"</td><td class=o data-q=")?;
    put_number(out, number)?;
    put_described(out, set, number)?;
    put(out, b" data-span=\"")?;
    put_marks(out, line.marks())?;
    put(out, b"\" style=\"--d:")?;
    put_number(out, line.indent)?;
    put(out, b"\">")?;
    put_tokens(out, line)?;
    put(out, b"</td><td class=p>")?;
    put_marks(out, line.marks())?;
    put(out, b"</td></tr>\n")?;
    put_words(out, set, number)
}

// Notes which finished line became of line k.
fn note(places: &mut [Option<usize>], k: usize, q: usize) {
    if let Some(place) = places.get_mut(k) {
        *place = Some(q);
    }
}

// All rows: beside a raw line that stays, the finished line that it became. Lines that stay keep their order, and no other is new.
// Kept: the places are no part of `Cleaning`: they are written here and read by the sheet, and `Cleaning` is lent and public.
pub(crate) fn put_rows(
    out: Output,
    cleaning: &Cleaning,
    places: &mut [Option<usize>],
) -> Result<(), Unwritten> {
    for (k, raw) in (0..256).zip(Lines::new(cleaning.raw)) {
        let Trace { flags, became } = ask(cleaning, k);
        let fate = fate_of(cleaning.raw, k, cleaning.cleaned, became);
        put_raw(out, fate, raw, k, &flags)?;
        match became.and_then(|q| Some((q, line_at(cleaning.cleaned, q)?))) {
            Some((q, line)) => {
                put_cleaned(out, line, q, set_at(cleaning.cautions, q))?;
                note(places, k, q);
            }
            None => put_arrow(out, &flags)?,
        }
    }
    Ok(())
}
