// `family` of the Rust, in the order of its tests: the table, the high bytes, r with digits, stack slots. No text is copied.
ghost use Rattle.std.specs.Prelude.{◌≡◌, map};
ghost use Rattle.std.specs.List.{prefix_len};
ghost use Rattle.reference.specs.Options.{option_of};
ghost use Rattle.reference.specs.Names.{LEGACY, is_digit, suffix, stack_slot, numbered, high_byte, family};
ghost use Rattle.names.specs.Tables.{unpadded};
ghost use Rattle.names.specs.Families.{Spells, Lists};

use crate::rows::column_in;
use text::starts;

// A row for each family: its names of width 64, 32, 16 and 8.
const NAMES: [[[u8; 3]; 4]; 8] = [
    [*b"rax", *b"eax", *b"ax\0", *b"al\0"],
    [*b"rbx", *b"ebx", *b"bx\0", *b"bl\0"],
    [*b"rcx", *b"ecx", *b"cx\0", *b"cl\0"],
    [*b"rdx", *b"edx", *b"dx\0", *b"dl\0"],
    [*b"rsi", *b"esi", *b"si\0", *b"sil"],
    [*b"rdi", *b"edi", *b"di\0", *b"dil"],
    [*b"rbp", *b"ebp", *b"bp\0", *b"bpl"],
    [*b"rsp", *b"esp", *b"sp\0", *b"spl"],
];

const WIDTHS: [u64; 4] = [64, 32, 16, 8];

// The row of rax in the table.
pub const RAX: u64 = 0;

// The high bytes of the first four families.
const HIGH: [[u8; 3]; 4] = [*b"ah\0", *b"bh\0", *b"ch\0", *b"dh\0"];

// What the bytes of a name say: a row of the table, the width and the lowest bit; or how many of the bytes name the family, and the
// width, from bit 0.
#[derive(Clone, Copy)]
pub enum Spelled {
    Row { row: u64, width: u64, lowest: u64 },
    Front { length: usize, width: u64 },
}

// A row of the table, and the width of a name in it. (Not the `Listed` of crate lines, which says where words point.)
#[derive(Clone, Copy)]
struct Listed {
    row: u64,
    width: u64,
}

// The first row that has s among its names, and s's width there.
fn legacy_in(s: &[u8], table: &[[[u8; 3]; 4]]) -> Option<Listed>
    ensures { Lists (map (map unpadded) table.now) s.now result }
{
    // Kept: a loop: of `find_map` the kit has a clause over a run of calls, but no lemma over a list, as it has of `find`.
    for (row, names) in table.iter().enumerate() {
        if let Some(column) = column_in(s, names) {
            // Kept: a cast: `enumerate` counts in `usize`, a family's number has 64 bits, which hold it; `u64::try_from` is no plainer,
            // since it asks what to do where they do not.
            return Some(Listed {
                row: row as u64,
                width: WIDTHS[column],
            });
        }
    }
    None
}

// A name of the table.
fn legacy(s: &[u8]) -> Option<Listed>
    ensures { Lists LEGACY s.now result }
{
    legacy_in(s, &NAMES)
}

// How many digits stand in front.
fn digits(s: &[u8]) -> usize
    ensures { result ≡ prefix_len is_digit s.now }
{
    s.iter().take_while(|b| b.is_ascii_digit()).count()
}

// The width that a numbered register's suffix says.
fn suffix(s: &[u8]) -> Option<u64>
    ensures { option_of result ≡ suffix s.now }
{
    match s {
        [] => Some(64),
        [b] => match *b {
            b'd' => Some(32),
            b'w' => Some(16),
            b'b' | b'l' => Some(8),
            _ => None,
        },
        _ => None,
    }
}

// Stack variables behave like registers.
fn stack_slot(s: &[u8]) -> Option<Spelled>
    ensures { Spells s.now (stack_slot s.now) result }
{
    if !starts(s, b"var_") {
        return None;
    }
    Some(Spelled::Front {
        length: s.len(),
        width: 64,
    })
}

// r with digits and a suffix, and what follows it.
fn numbered(s: &[u8]) -> Option<Spelled>
    ensures { Spells s.now (numbered s.now) result }
{
    let Some(rest) = s.strip_prefix(b"r") else {
        return stack_slot(s);
    };
    let n = digits(rest);
    if n == 0 {
        return stack_slot(s);
    }
    let width = suffix(&rest[n..])?;
    Some(Spelled::Front {
        length: 1 + n,
        width,
    })
}

// ah, bh, ch, dh, which begin at bit 8, and what follows them.
fn high_byte(s: &[u8]) -> Option<Spelled>
    ensures { Spells s.now (high_byte s.now) result }
{
    match column_in(s, &HIGH) {
        // Kept: a cast, as in `legacy_in`: `position` counts in `usize`.
        Some(row) => Some(Spelled::Row {
            row: row as u64,
            width: 8,
            lowest: 8,
        }),
        None => numbered(s),
    }
}

// The family, the width and the lowest bit of a name; none where it is of no family.
pub fn family(s: &[u8]) -> Option<Spelled>
    ensures { Spells s.now (family s.now) result }
{
    // no name of the tables is longer
    if 3 < s.len() {
        return numbered(s);
    }
    match legacy(s) {
        Some(Listed { row, width }) => Some(Spelled::Row {
            row,
            width,
            lowest: 0,
        }),
        None => high_byte(s),
    }
}
