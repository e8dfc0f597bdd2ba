// What a tape by offset begins with: 06 and the base.
ghost use Rattle.std.specs.Prelude.{◌≡◌, [], ◌∷◌, ◌≤◌, length};
ghost use Rattle.text.specs.Cursor.{Fits, Puts};
ghost use Rattle.answers.specs.Refusals.{refusing};
ghost use Rattle.tape.specs.Questions.{first_no};
ghost use Rattle.offsets.specs.Offsets.{front, base_of, begins_with_06, has_base};

use answers::Reason;
use tape::little_endian::number_at;
use text::Cursor;

// The question that refuses a tape's front: 19, and then 4 of 06.
pub fn asked(tape: &[u8]) -> Result<(), Reason>
    ensures { refusing result ≡ first_no ((19, begins_with_06 tape.now) ∷ (4, has_base tape.now) ∷ []) }
{
    // Kept: the first byte by its place: `first()` and a slice pattern were tried, and goals of each stayed open.
    if tape.is_empty() || tape[0] != 6 {
        return Err(Reason::NoBase);
    }
    if tape.len() < 9 {
        return Err(Reason::CutOff);
    }
    Ok(())
}

// The base of a tape whose front passed.
pub fn base_of(tape: &[u8]) -> u64
    requires { 9 ≤ length tape.now }
    ensures { result ≡ base_of tape.now }
{
    number_at(tape, 1, 8)
}

// Puts 06 and the base.
pub fn put_front(base: u64, out: &mut Cursor)
    requires { Fits out.old 9 }
    ensures { Puts out.old (front base) out.new }
{
    out.put_byte(6);
    out.put_le(base, 8);
}
