// The exact form read, line by line and field by field.
ghost use Rattle.std.specs.Prelude.{◌≡◌, ℕ, ◌<◌, ◌∷◌, ◌++◌, ◌==◌, length, get_or, position, MatchOption};
ghost use Rattle.listing_text.specs.Exact.{apart, line_read, tape_of, Makes};
ghost use Rattle.listing_text.specs.Parsed.{PutsRead};

use crate::fields::{Malformed, put_field, put_head};
use crate::room::Clipped;

// Where the first byte b stands.
#[tactic(auto, using(laws::proofs::Std::words_of_std))]
fn place_of(text: &[u8], b: u8) -> Option<usize>
    ensures { result ≡ position (λ x. x == b) text.now }
{
    text.iter().position(|x| *x == b)
}

// A text up to the first byte b, and what stands behind that; nothing where it has none. (Of std's texts only `str` has this.)
fn split_once(text: &[u8], b: u8) -> (&[u8], Option<&[u8]>)
    ensures without { (i : ℕ) → i < length result.0.now → get_or result.0.now i 0 ≡ b → ⊥ }
    ensures whole { MatchOption result.1 (text.now ≡ result.0.now) (λ behind. text.now ≡ result.0.now ++ (b ∷ behind.now)) }
{
    match place_of(text, b) {
        Some(i) => (&text[..i], Some(&text[i + 1..])),
        None => (text, None),
    }
}

// Puts a line, up to the first field that is wrong.
fn put_fields(line: &[u8], out: &mut Clipped) -> Result<(), Malformed>
    ensures { PutsRead out.old (line_read (apart 9 line.now)) out.new result }
{
    let (address, behind) = split_once(line, b'\t');
    let (indent, mut left) = split_once(behind.ok_or(Malformed)?, b'\t');
    put_head(address, indent, out)?;
    // Kept: parted at each tab by `split_once`, as the definition (`apart`) parts it: std's `split` would want one law more.
    while let Some(fields) = left {
        let (field, more) = split_once(fields, b'\t');
        put_field(field, out)?;
        left = more;
    }
    Ok(())
}

// Why a text makes no tape: the tape does not fit, or a line, counted from 0, is not in the exact form.
#[derive(Clone, Copy, Debug, PartialEq, Eq)]
pub enum Unmade {
    Full,
    Wrong(u64),
}

// Reads the exact form: puts the tape of a text, and answers its length.
pub fn put_tape(text: &[u8], out: &mut [u8]) -> Result<usize, Unmade>
    ensures { Makes (tape_of text.now) out.old out.new result }
{
    let mut page = Clipped::new(out);
    for (n, piece) in (0..).zip(text.split_inclusive(|b| *b == b'\n')) {
        let (line, _) = split_once(piece, b'\n');
        // Kept: asked and returned: `map_err` and `?` were tried, and the goal of their way out (`returns-in_err-map_err`) stayed open.
        if put_fields(line, &mut page).is_err() {
            return Err(Unmade::Wrong(n));
        }
    }
    page.put_byte(255);
    if page.cut {
        return Err(Unmade::Full);
    }
    Ok(page.at)
}
