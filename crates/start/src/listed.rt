// The list of names with their start values. An entry is a length byte, the name, then the value in 8 bytes.
ghost use Rattle.std.specs.Prelude.{◌≡◌, List};
ghost use Rattle.std.proofs.Math.Option.{some};
ghost use Rattle.reference.specs.Lists.{is_some};
ghost use Rattle.start.specs.Start as Start;
ghost use Rattle.start.specs.Start.{entries, is_register, known_entries, listed};
ghost use Rattle.start.specs.Items.{head_of, shown};
ghost use Rattle.start.specs.Unknown.{unknown_name, named, Names};

use names::Spelled;
use tape::little_endian::number_at;

// The entry at the head of a list, and the bytes behind it.
#[derive(Clone, Copy)]
pub struct Entry<'a> {
    pub name: &'a [u8],
    pub value: u64,
    pub rest: &'a [u8],
}

// The first entry of a list; none of an empty list, and where the entry is cut.
fn first_entry(list: &[u8]) -> Option<Entry<'_>>
    ensures { shown result ≡ head_of list.now }
{
    let (&n, behind) = list.split_first()?;
    let n = usize::from(n);
    let end = n + 8;
    if behind.len() < end {
        return None;
    }
    Some(Entry {
        name: &behind[..n],
        value: number_at(behind, n, 8),
        rest: &behind[end..],
    })
}

// Whether a name is a 64-bit register's and no stack slot's.
pub fn is_register(name: &[u8]) -> bool
    ensures { result ≡ is_register name.now }
{
    if text::starts(name, b"var_") {
        return false;
    }
    let Some(spelled) = names::family(name) else {
        return false;
    };
    match spelled {
        Spelled::Row { width, .. } | Spelled::Front { width, .. } => width == 64,
    }
}

// Whether no entry of a list is cut and each name is a 64-bit register's.
// Kept: this walk and that of `value_of` are `while let`s. An iterator of entries, with `all` here and `find` there, would be no plainer: a
// struct, its `next` and a definition of what is left, for two loops of six lines, and here it is asked behind it whether anything is left.
pub fn are_known(list: &[u8]) -> bool
    ensures { result ≡ is_some (known_entries list.now) }
{
    let mut rest = list;
    while let Some(entry) = first_entry(rest) {
        if !is_register(entry.name) {
            return false;
        }
        rest = entry.rest;
    }
    rest.is_empty()
}

// The first name that is no 64-bit register's: the chosen one, or that of a list's first such entry in front of one that is cut.
pub fn unknown_name<'a>(chosen: &'a [u8], list: &'a [u8]) -> Option<&'a [u8]>
    ensures name { named result ≡ unknown_name chosen.now list.now }
    ensures names { Names chosen.now list.now }
{
    if !is_register(chosen) {
        return Some(chosen);
    }
    let mut rest = list;
    while let Some(entry) = first_entry(rest) {
        if !is_register(entry.name) {
            return Some(entry.name);
        }
        rest = entry.rest;
    }
    None
}

// The value that a list gives a name: that of its first entry; a name that is not listed has the value 0.
pub fn value_of(list: &[u8], name: &[u8]) -> u64
    ensures { (es : List Start.Entry) → entries list.now ≡ some es → result ≡ listed es name.now }
{
    let mut rest = list;
    while let Some(entry) = first_entry(rest) {
        if text::same(name, entry.name) {
            return entry.value;
        }
        rest = entry.rest;
    }
    0
}
