// The tape of a listing and of its lines' marks, put into a lent slice, command by command (crate tape's `writing`). The lines, at most
// 256, go through an array of records.
ghost use Rattle.std.specs.Prelude.{◌≡◌, ◌+◌, ◌≤◌, ◌<◌, length};
ghost use Rattle.std.proofs.Math.Seq.{paste};
ghost use Rattle.reference.specs.Tape as Tape;
ghost use Rattle.lines.specs.Lines.{listing_of};
ghost use Rattle.text.specs.Cursor.{Fits, Puts};
ghost use Rattle.tables.specs.Tables.{marks_for};
ghost use Rattle.tables.specs.Records.{record_of, records_of, Sound};
ghost use Rattle.tables.specs.Writing.{tokens_bytes, lines_bytes, whole_line, marked_of};
ghost use Rattle.tables.specs.Writing.{recorded, paged_in, Writes, Wrote};
ghost use Rattle.lines.specs.Texts.{Holds, Listed, tokens_of};
ghost use Rattle.lines.specs.Marks.{highs_of, lows_of};

use crate::records::{LineRecord, store_line};
use lines::marks::Marks;
use lines::texts::{Listing, Texts};
use lines::words::{addressed, count, first, indent, kind, origin, text};
use tape::writing;
use text::Cursor;

// ---- one line

// Puts the commands of a line's tokens.
fn put_tokens(texts: &Texts<'_>, ws: &[u64], out: &mut Cursor<'_>)
    requires holds { Holds texts.now ws.now }
    requires ws_in_bounds { Fits out.old (length (tokens_bytes (tokens_of texts.now ws.now))) }
    ensures { Puts out.old (tokens_bytes (tokens_of texts.now ws.now)) out.new }
{
    for w in ws {
        writing::put_token(kind(*w), text(texts, *w), out);
    }
}

// Puts a line.
fn put_whole_line(texts: &Texts<'_>, tokens: &[u64], line: LineRecord, out: &mut Cursor<'_>)
    requires { Sound texts.now.tape.now texts.now.area.now tokens.now line
        × Fits out.old (length (whole_line (marked_of texts.now.tape.now texts.now.area.now tokens.now line))) }
    ensures { Puts out.old (whole_line (marked_of texts.now.tape.now texts.now.area.now tokens.now line)) out.new }
{
    let marks = line.marks;
    writing::put_line::<false>(line.address, line.indent, out);
    if marks.is_some() {
        writing::put_marks::<false>(marks.low, marks.high, out);
    }
    put_tokens(texts, &tokens[line.first..line.first + line.count], out);
}

// ---- all lines: their records, and the bytes of these

// The record of a line word: its address, if a bit of the word says that it has one, and its marks by the number of the input line.
#[tactic(auto, using(lines::proofs::words::Lines::origin_below))]
fn record_of(l: u64, addresses: &[u64], marks: &[Marks]) -> LineRecord
    requires { (256 ≤ length addresses.now) × (256 ≤ length marks.now) }
    ensures { result ≡ record_of addresses.now (lows_of marks.now) (highs_of marks.now) l }
{
    let k = origin(l);
    let address = addresses[k];
    LineRecord {
        address: addressed(l).then_some(address),
        indent: indent(l),
        first: first(l),
        count: count(l),
        marks: marks[k],
    }
}

// Stores the records of the line words, from the first place on.
// Kept: each by its index. `records.iter_mut().zip(lines)` was tried, and the proof did not close: once the borrow of `iter_mut` is over,
// nothing is known there of the records but how many they are.
fn gather(lines: &[u64], addresses: &[u64], marks: &[Marks], records: &mut [LineRecord])
    requires { (length lines.now ≤ length records.old) × (256 ≤ length addresses.now) × (256 ≤ length marks.now) }
    ensures { records.new ≡ paste records.old 0 (records_of addresses.now (lows_of marks.now) (highs_of marks.now) lines.now)
        (length lines.now) }
{
    for (k, l) in lines.iter().enumerate() {
        store_line(records, k, record_of(*l, addresses, marks));
    }
}

// Puts the lines of the records.
fn put_records(texts: &Texts<'_>, tokens: &[u64], records: &[LineRecord], out: &mut Cursor<'_>)
    requires { Writes texts.now.tape.now texts.now.area.now tokens.now records.now out.old }
    ensures { Puts out.old (lines_bytes (recorded texts.now.tape.now texts.now.area.now tokens.now records.now)) out.new }
{
    for line in records {
        put_whole_line(texts, tokens, *line, out);
    }
}

// Puts the lines. Their records are lent to `gather` and then to `put_records`, as document 01 has it.
fn put_lines(
    listing: &Listing<'_>,
    addresses: &[u64],
    marks: &[Marks],
    records: &mut [LineRecord],
    out: &mut Cursor<'_>,
)
    requires { Listed listing.now × (length listing.now.lines.now ≤ 256) × (256 ≤ length addresses.now) × (256 ≤ length marks.now)
        × (256 ≤ length records.old)
        × Fits out.old (length (lines_bytes (paged_in listing.now addresses.now marks.now))) }
    ensures { Puts out.old (lines_bytes (paged_in listing.now addresses.now marks.now)) out.new }
{
    gather(listing.lines, addresses, marks, records);
    put_records(
        &listing.texts,
        listing.tokens,
        &records[..listing.lines.len()],
        out,
    );
}

// ---- the whole tape

// Writes the listing's tape to the front of `out`, and says how long it is. What then stands in the records is not said.
// Kept: lengths as clauses, and no arrays of 256, which would ask more of callers than this function ever did (see `load`).
pub fn write(
    listing: &Listing<'_>,
    addresses: &[u64],
    marks: &[Marks],
    records: &mut [LineRecord],
    out: &mut [u8],
) -> usize
    requires listed { Listed listing.now × (length listing.now.lines.now ≤ 256) }
    requires in_bounds { (256 ≤ length addresses.now) × (256 ≤ length marks.now) × (256 ≤ length records.old) }
    requires lines_in_bounds { length (Tape.write (listing_of listing.now.texts.tape.now listing.now.texts.area.now listing.now.tokens.now
        addresses.now listing.now.lines.now)
        (marks_for (lows_of marks.now) (highs_of marks.now) listing.now.lines.now)) ≤ length out.old }
    ensures { Wrote (Tape.write (listing_of listing.now.texts.tape.now listing.now.texts.area.now listing.now.tokens.now addresses.now
        listing.now.lines.now)
        (marks_for (lows_of marks.now) (highs_of marks.now) listing.now.lines.now)) out.old out.new result }
{
    let mut out = Cursor::new(out, 0);
    put_lines(listing, addresses, marks, records, &mut out);
    writing::put_end(&mut out);
    out.at
}
