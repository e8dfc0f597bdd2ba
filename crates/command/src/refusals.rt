// What is told of a refusal: its line with the words for the one reason, what the bytes look like that were taken for a tape, and the same
// as JSON.
use crate::console::{Fate, Trouble, tell, tell_name};
use crate::json::print_object;
use answers::{Reason, Refusal};
use files::front;
pub(crate) use reports::words as words_of; // the words for the one reason

// ---- in a tape

// Whether a refusal has a place in the tape: an offset of it, or of 14 a line of its listing.
fn is_in_tape(refused: Refusal) -> bool {
    matches!(
        refused.reason,
        Reason::NoCommand
            | Reason::CutOff
            | Reason::OutOfPlace
            | Reason::OutOfBounds
            | Reason::Unprintable
            | Reason::BytesAfterEnd
            | Reason::TooMany
            | Reason::TooMuchText
            | Reason::NewKeyword
            | Reason::UnreadNumber
            | Reason::OutsideProfile
            | Reason::OutOfReach
    )
}

// ---- what the bytes look like

// The words for bytes that are no bare tape, where they are one in another form.
fn look_of(bytes: &[u8]) -> &'static [u8] {
    if tape::check::<false>(bytes).is_ok() {
        return b"";
    }
    if let [0..=2, rest @ ..] = bytes {
        if tape::check::<false>(rest).is_ok() {
            return b"a convention byte in front, as the filter takes it: --filter-form reads it";
        }
    }
    if tape::check::<true>(bytes).is_ok() {
        return b"a tape by offset: addresses makes a bare tape of it";
    }
    b""
}

fn tell_look(rt: &HostRuntime, name: &[u8], bytes: &[u8]) {
    let look = look_of(bytes);
    if !look.is_empty() {
        tell_name(rt, name);
        tell(b"it looks like ");
        tell(look);
        tell(b"\n");
    }
}

// ---- told

pub(crate) fn tell_refusal(refused: Refusal) {
    let mut line = [0u8; 256];
    let n = reports::put_refused(refused, &mut line);
    tell(front(&line, n));
}

// The same of a refusal by the questions of a tape, which stands in the tape.
pub(crate) fn tell_explained(tape: &[u8], refused: Refusal) {
    let mut line = [0u8; 512];
    let n = reports::put_explained(tape, refused, &mut line);
    tell(front(&line, n));
}

// A name that is no 64-bit register.
pub(crate) fn tell_no_register(rt: &HostRuntime, file: &[u8], name: &[u8]) -> Trouble {
    let mut line = [0u8; 1120];
    tell_name(rt, file);
    if name.len() <= 1024 {
        let n = reports::put_no_register(name, &mut line);
        tell(front(&line, n));
    } else {
        tell_refusal(Reason::NoRegister.at(0));
    }
    Trouble::Told
}

// Tells a refusal of a tape, with what the bytes look like if they are no bare one.
pub(crate) fn tell_in_tape(
    rt: &HostRuntime,
    name: &[u8],
    tape: &[u8],
    refused: Refusal,
) -> Trouble {
    tell_name(rt, name);
    if is_in_tape(refused) {
        tell_explained(tape, refused);
        tell_look(rt, name, tape);
    } else {
        tell_refusal(refused);
    }
    Trouble::Told
}

// Prints a refusal as JSON.
pub(crate) fn print_refused(
    rt: &HostRuntime,
    name: &[u8],
    tape: &[u8],
    refused: Refusal,
) -> Result<(), Trouble> {
    let number = refused.reason.number();
    let place = refused.place;
    let words = std::str::from_utf8(words_of(tape, refused)).unwrap_or_default();
    let rest = format!(in rt.alloc();
        ",\"refused\":{number},\"place\":{place},\"words\":\"{words}\""
    );
    print_object(rt, name, rest)
}

// Tells a refusal with the name of its file, and says what became of the file.
pub(crate) fn fate_of(rt: &HostRuntime, name: &[u8], done: Result<(), Trouble>) -> Fate {
    match done {
        Ok(_) => Fate::Done,
        Err(Trouble::Refused(refused)) => {
            tell_name(rt, name);
            tell_refusal(refused);
            Fate::Refused
        }
        Err(Trouble::Told) => Fate::Refused,
        Err(Trouble::Failed) => Fate::Failed,
    }
}
