// The room behind the used marks of a set, and the room that the changed lines of a plan take at most.
ghost use Rattle.std.specs.Prelude.{◌≡◌, ◌+◌, ◌^◌, ◌≤◌, ◌<◌, min, ltb, length, get_or, sum_by};
ghost use Rattle.std.proofs.Math.Seq.{slice};
ghost use Rattle.lines.specs.Words.{len_of};
ghost use Rattle.lines.specs.Lines.{first_of, count_of, part_of};
ghost use Rattle.join.specs.Current.{used_lines};
ghost use Rattle.join.specs.Patching.{words_room, needs, behind, free, Within};
ghost use Rattle.join.specs.Workspaces.{need};

use crate::workspace::Workspace;
use lines::texts::Size;
use lines::words;
use plan::plans::Join;

// What is free behind the used mark of a list of this length, below the places that a word can name.
#[tactic(auto, unfolding(crate::specs::Patching::behind))]
fn behind(length: usize, used: usize) -> usize
    ensures { result ≡ behind length used }
{
    length.min(65535).saturating_sub(used)
}

// What is free in a set whose area and whose token words have these lengths.
#[tactic(auto, unfolding(crate::specs::Patching::behind, crate::specs::Patching::free))]
fn free(area: usize, tokens: usize, size: Size) -> usize
    ensures { result ≡ free area tokens size }
{
    behind(area, size.text).min(24 * behind(tokens, size.tokens))
}

// The length of the texts of these words, in all.
fn text_length(line: &[u64]) -> usize
    requires { sum_by len_of line.now < 2 ^ 64 }
    ensures { result ≡ sum_by len_of line.now }
{
    line.iter().map(|w| words::len(*w)).sum()
}

// A bound on the room of the tokens of the line l.
fn line_room(tokens: &[u64], l: u64) -> usize
    requires { first_of l + count_of l ≤ length tokens.now }
    ensures { result ≡ words_room (part_of tokens.now l) }
{
    let line = words::line_of(tokens, l);
    text_length(line) + 24 * line.len()
}

// Whether the need of the lines, with the right side of the line `source` in each, is below n.
fn is_enough(tokens: &[u64], lines: &[u64], source: u64, n: usize) -> bool
    requires { (first_of source + count_of source ≤ length tokens.now)
        × Within lines.now (length lines.now) (length tokens.now) }
    ensures { result ≡ ltb (needs tokens.now source lines.now) n }
{
    let base = line_room(tokens, source);
    let mut left = n;
    for l in lines {
        let need = base + line_room(tokens, *l);
        if left <= need {
            return false;
        }
        left -= need;
    }
    0 < left
}

// Whether the need of the lines after line `gone` up to line `last`, with the right side of line `gone` in each, is below n.
fn has_room(tokens: &[u64], lines: &[u64], gone: usize, last: usize, n: usize) -> bool
    requires { (gone < length lines.now) × (last < length lines.now)
        × Within lines.now (length lines.now) (length tokens.now) }
    ensures { result ≡ ltb (needs tokens.now (get_or lines.now gone 0) (slice (gone + 1) (last + 1) lines.now)) n }
{
    let from = gone + 1;
    let end = from.max(last + 1);
    is_enough(tokens, &lines[from..end], lines[gone], n)
}

// Whether the lines that the plan j changes fit behind the used marks of both sets.
pub fn fits(room: &Workspace<'_>, j: Join, size: Size) -> bool
    requires { (size.tokens ≤ length room.now.tokens.now) × (size.lines ≤ length room.now.lines.now)
        × (j.line < size.lines) × (j.last < size.lines)
        × Within (used_lines room.now.lines.now size) size.lines size.tokens }
    ensures { result ≡ ltb (need room.now size j) (min (free (length room.now.area.now) (length room.now.tokens.now) size)
        (free (length room.now.area2.now) (length room.now.tokens2.now) size)) }
{
    let first = free(room.area.len(), room.tokens.len(), size);
    let second = free(room.area2.len(), room.tokens2.len(), size);
    has_room(
        &room.tokens[..size.tokens],
        &room.lines[..size.lines],
        j.line,
        j.last,
        first.min(second),
    )
}
