// The three calls, and the list of what is held.
ghost use Rattle.std.specs.Prelude.{◌≡◌, ◌∷◌, ◌++◌, ◌+◌, ◌*◌, ◌<◌, ◌≤◌, length, drop, set, IfOk};
ghost use Rattle.reference.specs.Control.{◌and◌};
ghost use Rattle.text.specs.Cursor.{Fits, Puts};
ghost use Rattle.tape.specs.Bytes.{put};
ghost use Rattle.states.specs.Store.{CELL, ROOM, cell, length_of, tape_of};
ghost use Rattle.states.specs.Calls.{is_whole, opened, list_reply, held_cell, spot_for, save_reply, restore_reply, body};
ghost use Rattle.answers.specs.Answers.{answer_of, Writes};
ghost use Rattle.states.specs.Answers.{cell_of, spot_of, opened_of, listed_of, Saves, Deletes, InStore};

use crate::cells::{Cells, Entry, cell_start};
use crate::sizes::{ROOM_BYTES, STORE_BYTES};
use answers::{Answer, Reason, Refusal};
use text::{Cursor, copy};

// The cell that a tape is saved in: the one that is held under the name, or the first free one.
#[derive(Clone, Copy, Debug, PartialEq, Eq)]
pub enum Placed {
    Replaced(usize),
    Taken(usize),
}

// Questions 2 and 22: the cells of the store. `enough` says whether what is lent beside it is long enough.
fn opened(store: &[u8], enough: bool) -> Result<Cells<'_>, Refusal>
    ensures answer { opened_of result ≡ opened store.now (is_whole store.now and enough) }
    ensures same { IfOk result (λ cells. cells.bytes.now ≡ store.now) }
{
    if store.len() < STORE_BYTES || !enough {
        return Err(Reason::TooLittleRoom.at(0));
    }
    let cells = Cells { bytes: store };
    match cells.wrong_cell() {
        Some(i) => Err(Reason::BrokenCell.at(i)),
        None => Ok(cells),
    }
}

// What the list of a store has of cell i: its name and the length of its tape, where it is held. First questions 2 and 22.
pub fn list(store: &[u8], i: usize) -> Result<Option<Entry<'_>>, Refusal>
    ensures { listed_of result ≡ list_reply store.now i }
{
    let cells = opened(store, true)?;
    Ok(cells.entry_at(i))
}

// ---- saving

// The cell for a tape that passed the tape questions, in a store that passed its own.
fn place_for(store: &Cells<'_>, name: &[u8]) -> Result<Placed, Refusal>
    ensures { spot_of result ≡ spot_for store.now.bytes.now name.now }
{
    if let Some(i) = store.named(8, name) {
        return Ok(Placed::Replaced(i));
    }
    let i = store.free_cell().ok_or(Reason::StoreFull.at(0))?;
    Ok(Placed::Taken(i))
}

fn save_place(store: &[u8], name: &[u8], tape: &[u8]) -> Result<Placed, Refusal>
    ensures { spot_of result ≡ save_reply store.now name.now tape.now }
{
    let cells = opened(store, true)?;
    tape::check::<false>(tape)?;
    place_for(&cells, name)
}

// Puts the length and the bytes of a tape.
fn put_body(tape: &[u8], out: &mut Cursor)
    requires { Fits out.old (4 + length tape.now) }
    ensures { Puts out.old (body tape.now) out.new }
{
    out.put(&tape.len().to_le_bytes()[..4]);
    out.put(tape);
}

// Replaces the tape of the cell i.
fn replace(store: &mut [u8], i: usize, tape: &[u8])
    requires { InStore store.old i × (length tape.now ≤ ROOM) }
    ensures { store.new ≡ put store.old (i * CELL + 9) (body tape.now) }
{
    let mut out = Cursor::new(store, cell_start(i) + 9);
    put_body(tape, &mut out);
}

// Takes the cell i for a name and its tape.
fn take(store: &mut [u8], i: usize, name: &[u8], tape: &[u8])
    requires { InStore store.old i × (length name.now ≡ 8) × (length tape.now ≤ ROOM) }
    ensures { store.new ≡ put store.old (i * CELL) (1 ∷ name.now ++ body tape.now) }
{
    let mut out = Cursor::new(store, cell_start(i));
    out.put_byte(1);
    out.put(name);
    put_body(tape, &mut out);
}

// Saves a tape under a name: in place of the one that is held under it, or in the first free cell. A refusal changes nothing.
pub fn save(store: &mut [u8], name: &[u8; 8], tape: &[u8]) -> Answer
    ensures { Saves store.old name.now tape.now store.new (answer_of result) }
{
    match save_place(store, name, tape)? {
        Placed::Replaced(i) => replace(store, i, tape),
        Placed::Taken(i) => take(store, i, name, tape),
    }
    Ok(0)
}

// ---- deleting

// The number of the cell that is held under a name, or the refusal: 2, 22 (the questions of `opened`) or 20.
fn held(store: &[u8], enough: bool, name: &[u8]) -> Result<usize, Refusal>
    ensures { cell_of result ≡ held_cell store.now (is_whole store.now and enough) name.now }
{
    let cells = opened(store, enough)?;
    cells.named(8, name).ok_or(Reason::NotHeld.at(0))
}

// Gives up the cell that begins at `at`.
fn release(store: &mut [u8], at: usize)
    requires { at + 13 ≤ length store.old }
    ensures { store.new ≡ set store.old at 0 }
{
    store[at] = 0;
}

// Deletes the state of a name: only the first byte of its cell is written.
pub fn delete(store: &mut [u8], name: &[u8; 8]) -> Answer
    ensures { Deletes store.old name.now store.new (answer_of result) }
{
    let i = held(store, true, name)?;
    release(store, cell_start(i));
    Ok(0)
}

// ---- coming back

// Copies the tape of the cell i, as it stands, to the front of the output.
fn copy_out(store: &Cells<'_>, i: usize, out: &mut [u8]) -> usize
    requires { (i < 8) × (length_of (cell store.now.bytes.now i) ≤ ROOM) × (ROOM ≤ length out.old) }
    ensures value { result ≡ length (tape_of (cell store.now.bytes.now i)) }
    ensures out_after { out.new ≡ tape_of (cell store.now.bytes.now i) ++ drop result out.old }
{
    let tape = store.held_tape(i);
    copy(tape, &mut out[..tape.len()]);
    tape.len()
}

// Comes back to the state of a name: its tape, as it stands, at the front of the output; the answer is its length.
pub fn restore(store: &[u8], name: &[u8; 8], out: &mut [u8]) -> Answer
    ensures { Writes (restore_reply store.now name.now (length out.old)) out.old out.new (answer_of result) }
{
    let i = held(store, ROOM_BYTES <= out.len(), name)?;
    let cells = Cells { bytes: store };
    // Kept: there is no `From` from usize to u64, and `try_from` has a branch that no length takes.
    Ok(copy_out(&cells, i, out) as u64)
}
