// The records of lines, lent as a slice of records: one is read, one is stored.
// Kept: `line_at` and `store_line` are one index each, since document 01 names the form: "line records are lent as a slice of records" to a
// few thin functions.
ghost use Rattle.std.specs.Prelude.{◌≡◌, ◌<◌, length, get_or, set};
ghost use Rattle.tables.specs.Records.{blank};

use lines::marks::Marks;

// The marks of a line that has none: a lowest above the highest.
// Kept: no `Option`, which would be no plainer: `joined` of `Marks` takes a minimum and a maximum of any two, and would have to match the
// cases.
pub const NO_MARKS: Marks = Marks {
    low: u64::MAX,
    high: 0,
};

// A line: its address if it has one, its indent, its tokens, `count` of them from `first` on, and its marks.
#[derive(Clone, Copy, Debug, PartialEq, Eq)]
pub struct LineRecord {
    pub address: Option<u64>,
    pub indent: u64,
    pub first: usize,
    pub count: usize,
    pub marks: Marks,
}

// What stands in an array of records before they are laid.
pub const BLANK: LineRecord = LineRecord {
    address: None,
    indent: 0,
    first: 0,
    count: 0,
    marks: Marks { low: 0, high: 0 },
};

// The record at an index.
pub fn line_at(lines: &[LineRecord], at: usize) -> LineRecord
    requires { at < length lines.now }
    ensures { result ≡ get_or lines.now at blank }
{
    lines[at]
}

// Stores a record at an index.
pub fn store_line(lines: &mut [LineRecord], at: usize, line: LineRecord)
    requires { at < length lines.old }
    ensures { lines.new ≡ set lines.old at line }
{
    lines[at] = line;
}
