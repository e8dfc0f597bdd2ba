// Named states of listings, in a file of 524,288 bytes. Who changes one holds its lock: a file beside it, which one run alone can make.
use crate::Call;
use crate::console::{
    Outcome, Trouble, buffer_of, failed, failed_by, no_memory, print, print_decimal, read_file,
    tell_name,
};
use crate::outputs::Product;
use crate::refusals::{fate_of, tell_explained};
use answers::{Reason, Refusal};
use arguments::{Action, Value};
use files::{front, is_gone, lock, lock_name, path_of, process_of, read_path};
use render::count_of;
use std::fs::remove_file;
use std::io::ErrorKind;
use std::thread::sleep;
use std::time::Duration;
use words::word_end;

const STORE: usize = 524288;

// ---- the lock

// Tells whose lock it is, if that run is gone or the time is over.
fn tell_lock(rt: &HostRuntime, lock: &str, is_over: bool) -> Option<Trouble> {
    let mut bytes = [0u8; 64];
    let n = read_path(rt, lock.as_bytes(), &mut bytes).ok()?;
    let process = process_of(path_of(front(&bytes, n)).ok()?.trim_end());
    let line = if is_gone(rt, process) {
        format!(in rt.alloc();
            "the store is locked by a run that was ended ({process}): remove this file"
        )
    } else if is_over {
        format!(in rt.alloc(); "the store is locked by process {process}")
    } else {
        return None;
    };
    Some(match line {
        Ok(line) => failed_by(rt, lock.as_bytes(), line.as_bytes()),
        Err(_) => no_memory(rt),
    })
}

// Waits for a store's lock, ten seconds at most, and answers its name.
fn take_lock(rt: &HostRuntime, at: &[u8]) -> Result<String, Trouble> {
    let name = lock_name(rt, at).map_err(|error| failed(rt, at, &error))?;
    for _ in 0..1000 {
        match lock(rt, at) {
            Ok(taken) => return Ok(taken),
            Err(error) if error.kind() == ErrorKind::AlreadyExists => {
                if let Some(trouble) = tell_lock(rt, name.as_str(), false) {
                    return Err(trouble);
                }
                sleep(rt, Duration::from_millis(10));
            }
            Err(error) => return Err(failed(rt, name.as_bytes(), &error)),
        }
    }
    Err(match tell_lock(rt, name.as_str(), true) {
        Some(trouble) => trouble,
        None => failed_by(rt, name.as_bytes(), b"the store is locked"),
    })
}

// ---- the states

// The name of a state: its bytes, and zeros up to eight.
fn name_of(word: &[u8]) -> [u8; 8] {
    let mut name = [0u8; 8];
    if let Some(bytes) = name.get_mut(..word.len()) {
        bytes.copy_from_slice(word);
    }
    name
}

// The bytes of a name before its first 0; those that cannot be printed as \xHH.
fn print_state_name(rt: &HostRuntime, name: &[u8]) -> Result<(), Trouble> {
    let bytes = front(name, word_end(name, 0));
    let mut shown = [0u8; 32];
    let n = if bytes.len() <= 8 {
        reports::put_visible(bytes, &mut shown)
    } else {
        0
    };
    print(rt, front(&shown, n))
}

// The names that a store has, each with the length of its tape.
fn list_states(rt: &HostRuntime, store: &[u8]) -> Result<(), Trouble> {
    for i in 0..8 {
        if let Some(entry) = states::list(store, i)? {
            print_state_name(rt, entry.name)?;
            print(rt, b" ")?;
            print_decimal(rt, count_of(entry.length))?;
            print(rt, b"\n")?;
        }
    }
    Ok(())
}

// Whether a refusal is of the store, and not of the tape that was to be saved.
fn is_of_store(refused: Refusal) -> bool {
    matches!(
        refused.reason,
        Reason::NotHeld | Reason::StoreFull | Reason::BrokenCell
    )
}

// Kept: what is done, the path, the store and the tape are parameters: `act_on_file` has the store read into a buffer and lends `act` the
// front of it, so that a struct of them would be made twice.
impl Call<'_> {
    // A refusal of the tape is told with the tape's name, here.
    fn save_state(
        &self,
        at: &[u8],
        store: &mut [u8],
        name: &[u8; 8],
        tape: &[u8],
    ) -> Result<(), Trouble> {
        match states::save(store, name, tape) {
            Ok(_) => Product::Bytes(store).write(self.rt, at),
            Err(refused) if is_of_store(refused) => Err(Trouble::Refused(refused)),
            Err(refused) => {
                tell_name(self.rt, self.saved_file());
                tell_explained(tape, refused);
                Err(Trouble::Told)
            }
        }
    }

    // Does what is asked with a store: the bytes that were read, or zeros where it is new. `tape` is what is to be saved.
    fn act(&self, action: Action, at: &[u8], store: &mut [u8], tape: &[u8]) -> Result<(), Trouble> {
        let name = name_of(self.word(self.request.operands.third));
        match action {
            Action::List => list_states(self.rt, store),
            Action::Save => self.save_state(at, store, &name, tape),
            Action::Get => self.answered(at, |out| states::restore(store, &name, out)),
            Action::Delete => {
                states::delete(store, &name)?;
                Product::Bytes(store).write(self.rt, at)
            }
        }
    }

    // Reads a store, and answers how many bytes it has; `save` makes one where there is none.
    fn read_store(&self, action: Action, at: &[u8], store: &mut [u8]) -> Result<usize, Trouble> {
        if action != Action::Save {
            return read_file(self.rt, at, store);
        }
        match read_path(self.rt, at, store) {
            Ok(0) => Ok(STORE),
            Ok(n) => Ok(n),
            Err(error) if error.kind() == ErrorKind::NotFound => Ok(STORE),
            Err(error) => Err(failed(self.rt, at, &error)),
        }
    }

    // Reads a store and does what is asked with it, by way of a buffer with room for a byte more.
    fn act_on_file(
        &self,
        action: Action,
        at: &[u8],
        buffer: &mut [u8],
        tape: &[u8],
    ) -> Result<(), Trouble> {
        let n = self.read_store(action, at, buffer)?;
        match buffer.get_mut(..STORE) {
            Some(store) if n == STORE => self.act(action, at, store, tape),
            _ => Err(failed_by(self.rt, at, b"not a store, which has 524,288 bytes")),
        }
    }

    fn act_on(&self, action: Action, at: &[u8], tape: &[u8]) -> Result<(), Trouble> {
        let mut buffer = buffer_of(self.rt, 524289)?;
        self.act_on_file(action, at, &mut buffer, tape)
    }

    // The file of the tape that is to be saved.
    fn saved_file(&self) -> &[u8] {
        if self.request.operands.count < 4 {
            b"-"
        } else {
            self.word(self.request.operands.last)
        }
    }

    // Changes a store, holding its lock.
    fn change(&self, action: Action, at: &[u8], tape: &[u8]) -> Result<(), Trouble> {
        let lock = take_lock(self.rt, at)?;
        let done = self.act_on(action, at, tape);
        let _ = remove_file(self.rt, lock.as_str());
        done
    }

    // The tape that is to be saved is read before the store is locked.
    fn try_state(&self, action: Action, at: &[u8]) -> Result<(), Trouble> {
        let mut input = buffer_of(self.rt, 131072)?;
        match action {
            Action::List | Action::Get => self.act_on(action, at, b""),
            Action::Delete => self.change(action, at, b""),
            Action::Save => {
                let n = read_file(self.rt, self.saved_file(), &mut input)?;
                self.change(action, at, front(&input, n))
            }
        }
    }

    pub(crate) fn state(&self) -> Outcome {
        let Some(Value::Action(action)) = self.request.operands.value else {
            return Outcome::Done;
        };
        let at = self.word(self.request.operands.first);
        fate_of(self.rt, at, self.try_state(action, at)).outcome()
    }
}
