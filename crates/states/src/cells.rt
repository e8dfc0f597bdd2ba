// A store that is long enough, one cell of it, and cells looked for. Nothing is written.
ghost use Rattle.std.specs.Prelude.{◌≡◌, ◌≤◌, ◌*◌, ◌<◌, length, ltb};
ghost use Rattle.reference.specs.Options.{option_of};
ghost use Rattle.reference.specs.Lists.{is_some};
ghost use Rattle.states.specs.Store.{CELL, STORE, ROOM, cell, name_of, length_of, tape_of};
ghost use Rattle.states.specs.Store.{is_free, holds, named, free_cell, is_wrong, wrong_cell, entry_in, entry_at};
ghost use Rattle.states.specs.Entries.{entry_of};

use crate::sizes::{CELL_BYTES, ROOM_BYTES};
use tape::little_endian::number_at;
use text::same;

// A lent store that has all of its eight cells.
#[derive(Clone, Copy)]
pub struct Cells<'a> {
    pub bytes: &'a [u8],
    pub ghost whole: { STORE ≤ length bytes.now },
}

// What the list of a store has of a held cell: its name, and how long its tape is.
#[derive(Clone, Copy, Debug, PartialEq, Eq)]
pub struct Entry<'a> {
    pub name: &'a [u8],
    pub length: usize,
}

// Where a cell begins.
pub fn cell_start(i: usize) -> usize
    requires { i < 8 }
    ensures { result ≡ i * CELL }
{
    i * CELL_BYTES
}

// ---- one cell

fn cell_name(cell: &[u8]) -> &[u8]
    requires { 13 ≤ length cell.now }
    ensures { result.now ≡ name_of cell.now }
{
    &cell[1..9]
}

fn cell_length(cell: &[u8]) -> usize
    requires { 13 ≤ length cell.now }
    ensures { result ≡ length_of cell.now }
{
    // Kept: there is no `From` from u64 to usize, and `try_from` has a branch that no number of four bytes takes.
    number_at(cell, 9, 4) as usize
}

// What the list has of a cell; none, if it is not held.
fn entry_in(cell: &[u8]) -> Option<Entry<'_>>
    requires { 13 ≤ length cell.now }
    ensures { entry_of result ≡ entry_in cell.now }
{
    if cell[0] != 1 {
        return None;
    }
    Some(Entry {
        name: cell_name(cell),
        length: cell_length(cell),
    })
}

// Whether a length is more than a cell has room for.
fn is_long(n: usize) -> bool
    ensures { result ≡ ltb ROOM n }
{
    ROOM_BYTES < n
}

// Kept: that the number of a cell is below 8 stands as a clause, here and in calls.rt: a type that says it would be made of each number
// that `find` gives and taken apart again by `cell_start` and by the definitions, which speak of the number.
impl<'a> Cells<'a> {
    fn cell_at(&self, i: usize) -> &'a [u8]
        requires { i < 8 }
        ensures { result.now ≡ cell self.now.bytes.now i }
    {
        let at = cell_start(i);
        &self.bytes[at..at + CELL_BYTES]
    }

    fn holds(&self, i: usize, name: &[u8]) -> bool
        requires { i < 8 }
        ensures { result ≡ holds name.now (cell self.now.bytes.now i) }
    {
        let cell = self.cell_at(i);
        cell[0] == 1 && same(cell_name(cell), name)
    }

    fn is_free(&self, i: usize) -> bool
        requires { i < 8 }
        ensures { result ≡ is_free (cell self.now.bytes.now i) }
    {
        self.cell_at(i)[0] == 0
    }

    // ---- cells looked for

    // Which of the first k cells is held under a name.
    pub fn named(&self, k: usize, name: &[u8]) -> Option<usize>
        requires { k ≤ 8 }
        ensures { option_of result ≡ named self.now.bytes.now k name.now }
    {
        (0..k).find(|i| self.holds(*i, name))
    }

    pub fn free_cell(&self) -> Option<usize>
        ensures { option_of result ≡ free_cell self.now.bytes.now }
    {
        (0..8).find(|i| self.is_free(*i))
    }

    // ---- question 22

    // Whether one of the first i cells is held under a name.
    fn is_taken(&self, i: usize, name: &[u8]) -> bool
        requires { i ≤ 8 }
        ensures { result ≡ is_some (named self.now.bytes.now i name.now) }
    {
        self.named(i, name).is_some()
    }

    fn is_wrong(&self, i: usize) -> bool
        requires { i < 8 }
        ensures { result ≡ is_wrong self.now.bytes.now i }
    {
        let cell = self.cell_at(i);
        match cell[0] {
            0 => false,
            1 => is_long(cell_length(cell)) || self.is_taken(i, cell_name(cell)),
            _ => true,
        }
    }

    pub fn wrong_cell(&self) -> Option<usize>
        ensures { option_of result ≡ wrong_cell self.now.bytes.now }
    {
        (0..8).find(|i| self.is_wrong(*i))
    }

    // ---- what a cell holds

    // What the list has of cell i; none where it is none of the eight, or not held.
    pub fn entry_at(&self, i: usize) -> Option<Entry<'a>>
        ensures { entry_of result ≡ entry_at self.now.bytes.now i }
    {
        if i < 8 {
            entry_in(self.cell_at(i))
        } else {
            None
        }
    }

    pub fn held_tape(&self, i: usize) -> &'a [u8]
        requires { (i < 8) × (length_of (cell self.now.bytes.now i) ≤ ROOM) }
        ensures { result.now ≡ tape_of (cell self.now.bytes.now i) }
    {
        let cell = self.cell_at(i);
        &cell[13..13 + cell_length(cell)]
    }
}
