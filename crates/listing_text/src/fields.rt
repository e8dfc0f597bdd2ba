// A field of the exact form: what it says, and its bytes on the tape.
ghost use Rattle.std.specs.Prelude.{◌≡◌, ◌+◌, ◌<◌, eqb, IfSome};
ghost use Rattle.std.proofs.Math.Option.{none, some};
ghost use Rattle.reference.specs.Control.{let_some◌else◌then◌};
ghost use Rattle.reference.specs.Lists.{position};
ghost use Rattle.reference.specs.Options.{option_of};
ghost use Rattle.listing_text.specs.Room.{Puts};
ghost use Rattle.listing_text.specs.Forms.{letters};
ghost use Rattle.listing_text.specs.Exact.{address_in, indent_in, line_command, span_command, token_command, field_command};
ghost use Rattle.listing_text.specs.Parsed.{addressed, bytes_in, read_in, read_of, PutsRead};

use crate::forms::LETTERS;
use crate::room::Clipped;
use text::same;
use words::number_in;

// What the first two fields of a line say, or a further one; a token's tag is its first byte on the tape.
#[derive(Clone, Copy, Debug)]
pub enum Field<'a> {
    Line { address: Option<u64>, indent: u8 },
    Marks { low: u64, high: u64 },
    Token { tag: u8, text: &'a [u8] },
}

// A field is not in the exact form.
#[derive(Clone, Copy, Debug, PartialEq, Eq)]
pub struct Malformed;

// Kept: up to `put_read`, `None` stands for a field that is not in the exact form, of an address too, beside its own `None` for none: so
// their definitions have it, and `?` takes what `number_in` answers as it is, where with `Malformed` each would want an `ok_or` before it.

// ---- the first two fields

// An address, or `-` for none.
fn address_of(field: &[u8]) -> Option<Option<u64>>
    ensures { addressed result ≡ address_in field.now }
{
    if same(field, b"-") {
        return Some(None);
    }
    Some(Some(number_in(field, 16)?))
}

fn indent_of(field: &[u8]) -> Option<u8>
    ensures { option_of result ≡ indent_in field.now }
{
    u8::try_from(number_in(field, 10)?).ok()
}

fn line_of<'a>(address: &[u8], indent: &[u8]) -> Option<Field<'a>>
    ensures { read_in result ≡ read_of (line_command address.now indent.now) }
{
    let address = address_of(address)?;
    let indent = indent_of(indent)?;
    Some(Field::Line { address, indent })
}

// ---- the others

// Marks: LOWEST..HIGHEST, 16 digits each.
fn span_of<'a>(span: &[u8]) -> Option<Field<'a>>
    ensures { read_in result ≡ read_of (span_command span.now) }
{
    if span.len() != 34 || !same(&span[16..18], b"..") {
        return None;
    }
    let low = number_in(&span[..16], 16)?;
    let high = number_in(&span[18..], 16)?;
    Some(Field::Marks { low, high })
}

// The kind that has a letter.
fn kind_of(letter: u8) -> Option<usize>
    ensures is { option_of result ≡ position (eqb letter) letters }
    ensures below { IfSome result (λ k. k < 8) }
{
    LETTERS.iter().position(|b| letter == *b)
}

// A token's first byte on the tape, by the letter of its kind.
fn tag_of(letter: u8) -> Option<u8>
    ensures { option_of result ≡ (let_some (position (eqb letter) letters) else none then λ kind. some (16 + kind)) }
{
    u8::try_from(16 + kind_of(letter)?).ok()
}

fn token_of(letter: u8, text: &[u8]) -> Option<Field>
    ensures { read_in result ≡ read_of (token_command letter text.now) }
{
    let tag = tag_of(letter)?;
    if 65535 < text.len() {
        return None;
    }
    Some(Field::Token { tag, text })
}

// Marks, or a letter, a colon and a text.
fn field_of(field: &[u8]) -> Option<Field>
    ensures { read_in result ≡ read_of (field_command field.now) }
{
    // Kept: the two bytes by their places: a slice pattern was tried, and the goals of its three arms stayed open.
    if field.len() < 2 || field[1] != b':' {
        return None;
    }
    if field[0] == b'm' {
        return span_of(&field[2..]);
    }
    token_of(field[0], &field[2..])
}

// ---- read and put

impl<'a> Field<'a> {
    // Puts its bytes.
    fn put(self, out: &mut Clipped)
        ensures { Puts out.old (bytes_in self.entry) out.new }
    {
        match self {
            Field::Line { address, indent } => {
                match address {
                    Some(address) => {
                        out.put_byte(1);
                        out.put_le(address, 8);
                    }
                    None => out.put_byte(2),
                }
                out.put_byte(indent);
            }
            Field::Marks { low, high } => {
                out.put_byte(3);
                out.put_le(low, 8);
                out.put_le(high, 8);
            }
            Field::Token { tag, text } => {
                out.put_byte(tag);
                out.put(&text.len().to_le_bytes()[..2]);
                out.put(text);
            }
        }
    }
}

// Puts what was read, if it is right.
fn put_read(read: Option<Field>, out: &mut Clipped) -> Result<(), Malformed>
    ensures { PutsRead out.old (read_in read.entry) out.new result }
{
    read.ok_or(Malformed)?.put(out);
    Ok(())
}

// Puts the command of a line's first two fields.
pub fn put_head(address: &[u8], indent: &[u8], out: &mut Clipped) -> Result<(), Malformed>
    ensures { PutsRead out.old (read_of (line_command address.now indent.now)) out.new result }
{
    put_read(line_of(address, indent), out)
}

// Puts the command of a further field.
pub fn put_field(field: &[u8], out: &mut Clipped) -> Result<(), Malformed>
    ensures { PutsRead out.old (read_of (field_command field.now)) out.new result }
{
    put_read(field_of(field), out)
}
