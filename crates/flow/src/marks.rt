// Changes in a text: `++`, `--`, and each `=` that is of no comparison. A scan takes one byte after the other, and is told apart from the
// text, since the bytes outside brackets, of which the changes are asked too, stand in no slice.
#![tactic(auto, using(laws::proofs::Std::tests_of_std))]

ghost use Rattle.std.specs.Prelude.{◌≡◌, ◌+◌, ◌≤◌, ◌<◌, ◌∷◌, [], eqb, length};
ghost use Rattle.reference.specs.Control.{◌and◌, when◌then◌else◌};
ghost use Rattle.reference.specs.Text.{Text, bytes, contains};
ghost use Rattle.cautions.specs.Texts.{is_mark, marks_after, marks};
ghost use Rattle.flow.specs.Marking.{marking};
ghost use Rattle.lines.specs.Texts.{Points, token_of};

use ground::kinds;
use lines::texts::Texts;
use lines::words;

// The byte that was read last, which may end a change once the next one is known, the one in front of it (0: none, or the last of a
// shift), and how many changes were ended before.
#[derive(Clone, Copy)]
pub struct Marking {
    pub before: u8,
    pub last: u8,
    pub count: usize,
}

// Nothing read.
pub const NO_MARKS: Marking = Marking {
    before: 0,
    last: 0,
    count: 0,
};

// Whether the byte c, between p and n, ends a change.
#[tactic(auto, using(laws::proofs::Std::tests_of_std), unfolding(cautions::specs::Texts::is_mark))]
fn is_mark(p: u8, c: u8, n: u8) -> bool
    ensures { result ≡ is_mark p c n }
{
    c == b'=' && n != b'=' && !text::has_byte(b"=!<>", p) || c == p && text::has_byte(b"+-", c)
}

// What the byte c, behind p, is to the next one: the last of `<<` and `>>` is nothing, since a `=` behind it changes.
fn unless_shift(p: u8, c: u8) -> u8
    ensures { result ≡ (when eqb c p and contains (bytes "<>") c then 0 else c) }
{
    if c == p && text::has_byte(b"<>", c) {
        0
    } else {
        c
    }
}

// One byte more.
pub(crate) fn with_byte(m: Marking, b: u8) -> Marking
    requires { m.count ≤ 4294967296 }
    ensures is { (s : Text) → marking result s ≡ marking m (b ∷ s) }
    ensures few { result.count ≤ m.count + 1 }
{
    let ended = usize::from(is_mark(m.before, m.last, b));
    Marking {
        before: unless_shift(m.before, m.last),
        last: b,
        count: m.count + ended,
    }
}

// How many changes there were, now that nothing follows.
pub(crate) fn total(m: Marking) -> usize
    requires { m.count ≤ 4294967296 }
    ensures { result ≡ marking m [] }
{
    m.count + usize::from(is_mark(m.before, m.last, 0))
}

// The changes in a text.
fn marks_in(s: &[u8]) -> usize
    requires { length s.now < 65536 }
    ensures { result ≡ marks_after 0 s.now }
{
    let mut m = NO_MARKS;
    for b in s {
        m = with_byte(m, *b);
    }
    total(m)
}

// The changes that a token makes.
#[tactic(auto, using(crate::proofs::Changes::changes))]
pub fn marks_of(texts: &Texts<'_>, w: u64) -> usize
    requires { Points texts.now w }
    ensures { result ≡ marks (token_of texts.now w) }
{
    if words::kind(w) == kinds::PUNCT {
        marks_in(words::text(texts, w))
    } else {
        0
    }
}
