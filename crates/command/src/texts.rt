// The tape of a text in the exact form, and what is wrong with a text that has none.
use crate::Call;
use crate::console::{Trouble, buffer_of, failed_by, no_memory, tell, tell_name};
use crate::outputs::Product;
use crate::refusals::tell_explained;
use files::{append, front};
use listing_text::{Unmade, put_tape};

// Whether a text is the exact form of a tape, as far as it goes; the tape goes into a room of 131,072 bytes.
fn is_exact(text: &[u8], room: &mut [u8]) -> bool {
    !matches!(put_tape(text, room), Err(Unmade::Wrong(_)))
}

// Whether a text is right as the first field of a line: with an indent behind it, it is a line.
fn is_address(field: &[u8], room: &mut [u8]) -> bool {
    let mut line = [0u8; 64];
    match append(field, &mut line, 0) {
        Some(n) => match append(b"\t0", &mut line, n) {
            Some(n) => is_exact(front(&line, n), room),
            None => false,
        },
        None => false,
    }
}

// How many of a line's fields, from the left, are right; a line has two at least.
fn right_fields(line: &[u8], room: &mut [u8]) -> u64 {
    let mut n = 0u64;
    for (i, b) in line.iter().enumerate() {
        if *b == b'\t' {
            let so_far = front(line, i);
            let right = if n == 0 {
                is_address(so_far, room)
            } else {
                is_exact(so_far, room)
            };
            if !right {
                return n;
            }
            n = n.saturating_add(1);
        }
    }
    if n == 0 && is_address(line, room) {
        1
    } else {
        n
    }
}

impl Call<'_> {
    // A line of a text that is wrong.
    fn tell_wrong_line(&self, name: &[u8], text: &[u8], number: u64, room: &mut [u8]) -> Trouble {
        // Kept: the number of a line of the text, which has fewer than 2^64: the error of `try_from` cannot come, and would want an answer.
        let line = text
            .split(|b| *b == b'\n')
            .nth(number as usize)
            .unwrap_or_default();
        let field = right_fields(line, room).saturating_add(1);
        let number = number.saturating_add(1);
        match format!(in self.rt.alloc();
            "line {number}, field {field}, is not as show --exact prints it"
        ) {
            Ok(words) => {
                failed_by(self.rt, name, words.as_bytes());
                Trouble::Told
            }
            Err(_) => no_memory(self.rt),
        }
    }

    // A tape that was made of a text; what `check` would refuse is refused. A line of the tape is one of the text.
    fn deliver_made(&self, name: &[u8], tape: &[u8]) -> Result<(), Trouble> {
        match tape::check::<false>(tape) {
            Ok(_) => self.deliver(name, Product::Bytes(tape)),
            Err(refused) => {
                tell_name(self.rt, name);
                tell(b"the tape of this text is ");
                tell_explained(tape, refused);
                Err(Trouble::Told)
            }
        }
    }

    // The tape of a text in the exact form.
    pub(crate) fn tape_one(&self, name: &[u8], text: &[u8]) -> Result<(), Trouble> {
        if 131072 <= text.len() {
            return Err(failed_by(self.rt, name, b"the text is too long"));
        }
        let mut out = buffer_of(self.rt, 131072)?;
        match put_tape(text, &mut out) {
            Ok(length) => self.deliver_made(name, front(&out, length)),
            Err(Unmade::Full) => {
                failed_by(self.rt, name, b"the tape of this text is too long");
                Err(Trouble::Told)
            }
            Err(Unmade::Wrong(line)) => Err(self.tell_wrong_line(name, text, line, &mut out)),
        }
    }
}
