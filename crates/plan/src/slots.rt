// The stack slots whose address is taken when a round begins: their names in a buffer of their own, gathered (copied, since texts in the
// area move during the round) and looked up.
ghost use Rattle.std.specs.Prelude.{◌≡◌, [], ◌∷◌, ◌≤◌, ◌<◌, length};
ghost use Rattle.reference.specs.Lists.{windows};
ghost use Rattle.reference.specs.Text.{has};
ghost use Rattle.reference.specs.Claim.{text_in, token_count, text as text-of-all};
ghost use Rattle.reference.specs.Run.{addressed_here, addressed_in};
ghost use Rattle.lines.specs.Words.{len_of};
ghost use Rattle.plan.specs.Slots.{Slotting, Roomy, Noted, Gathers, SameSlots};
ghost use Rattle.plan.specs.Texts.{slot_names, Slotted};
ghost use Rattle.lines.specs.Texts.{Holds, Known, Listed, Points, bare_listing, fam_text, token_of, tokens_of};

use ground::kinds;
use lines::fams::Fam;
use lines::texts::{Listing, Texts};
use lines::traits::{self, has};
use lines::words;
use text::copy;

// The names, and a word for each.
// Kept: words that point into a buffer, not a list of texts: the names are copied when a round begins, since the area that they stand in is
// written in it, and by a rule of the project there is no heap; the call lends the buffer and the words.
#[derive(Clone, Copy)]
pub struct SlotNames<'a> {
    pub text: &'a [u8],
    pub words: &'a [u64],
}

// ---- gathered

// The names as they are gathered: the lent slices of their bytes and of a word for each, and how much of each is used.
// Kept: lengths beside lent slices: by a rule of the project there is no heap.
#[derive(Drop)]
struct SlotBuffer<'a> {
    text: &'a mut [u8],
    words: &'a mut [u64],
    used: usize,
    count: usize,
}

impl SlotBuffer<'_> {
    // Puts a name behind the others.
    // Kept: by hand: a `Cursor` for one `put` would be made of `text` and `used`, and `used` be read back from it: as many lines, and the
    // word beside it asks where the name begins.
    fn push(&mut self, s: &[u8])
        requires { Slotting self.old × Roomy self.old (length s.now) 1 }
        ensures noted { Noted (s.now ∷ []) (length s.now) 1 self.old self.new }
        ensures lent { SameSlots self.old self.new }
    {
        let end = self.used + s.len();
        copy(s, &mut self.text[self.used..end]);
        self.words[self.count] = words::token_word(
            kinds::PLAIN,
            words::IN_AREA,
            self.used,
            s.len(),
        );
        self.count += 1;
        self.used = end;
    }
}

// Adds the text of the token w, if it begins `var_` and the token before it ends in `&`.
fn gather_slot(texts: &Texts<'_>, before: u64, w: u64, names: &mut SlotBuffer<'_>)
    requires { Points texts.now before × Points texts.now w × Slotting names.old × Roomy names.old (len_of w) 1 }
    ensures noted { Noted (addressed_here ((token_of texts.now before, token_of texts.now w) ∷ [])) (len_of w) 1 names.old names.new }
    ensures lent { SameSlots names.old names.new }
{
    if has(texts, before, traits::AMPERSAND) && has(texts, w, traits::SLOT) {
        names.push(words::text(texts, w));
    }
}

// Adds the names that are addressed in a line.
fn gather_line(texts: &Texts<'_>, line: &[u64], names: &mut SlotBuffer<'_>)
    requires { Holds texts.now line.now × Slotting names.old
        × Roomy names.old (text_in (tokens_of texts.now line.now)) (length line.now) }
    ensures noted { Noted (addressed_here (windows (tokens_of texts.now line.now))) (text_in (tokens_of texts.now line.now))
        (length line.now) names.old names.new }
    ensures lent { SameSlots names.old names.new }
{
    for pair in line.windows(2) {
        gather_slot(texts, pair[0], pair[1], names);
    }
}

// Gathers the names that are addressed in a listing.
pub fn gather_slots<'a>(
    listing: &Listing<'_>,
    slots: &'a mut [u8],
    slot_words: &'a mut [u64],
) -> SlotNames<'a>
    requires listed { Listed listing.now }
    requires slots_in_bounds { (text-of-all (bare_listing listing.now) ≤ length slots.old)
        × (text-of-all (bare_listing listing.now) < 65536) }
    requires slot_words_in_bounds { token_count (bare_listing listing.now) ≤ length slot_words.old }
    ensures { Gathers (addressed_in (bare_listing listing.now)) result.text.now result.words.now }
{
    let mut names = SlotBuffer {
        text: slots,
        words: slot_words,
        used: 0,
        count: 0,
    };
    for l in listing.lines {
        let line = words::line_of(listing.tokens, *l);
        gather_line(&listing.texts, line, &mut names);
    }
    let used = names.used;
    let count = names.count;
    SlotNames {
        text: &slots[..used],
        words: &slot_words[..count],
    }
}

// ---- looked up

// Whether s is one of the names.
fn slot_among(slots: &SlotNames<'_>, s: &[u8]) -> bool
    requires { Slotted slots.now }
    ensures { result ≡ has (slot_names slots.now) s.now }
{
    // A name's word points into the one buffer, as the tape or as the area.
    let texts = Texts {
        tape: slots.text,
        area: slots.text,
    };
    slots.words.iter().any(|w| words::text(&texts, *w) == s)
}

// Whether the family is a stack slot whose address was taken when the round began.
pub fn is_addressed(texts: &Texts<'_>, slots: &SlotNames<'_>, f: Fam) -> bool
    requires { Slotted slots.now × Known texts.now f }
    ensures { result ≡ has (slot_names slots.now) (fam_text texts.now f) }
{
    8 <= f && slot_among(slots, words::text(texts, f))
}
