// Appending to a set: a word, a text, more text for the last token, a token of the old listing as it is.
ghost use Rattle.std.specs.Prelude.{◌≡◌, ◌++◌, ◌+◌, ◌-◌, ◌≤◌, ◌<◌, length, take, drop};
ghost use Rattle.reference.specs.Text.{Text};
ghost use Rattle.reference.specs.Listing.{token};
ghost use Rattle.lines.specs.Words.{kind_of, buffer_of, start_of, len_of, text_of};
ghost use Rattle.lines.specs.Words as words;
ghost use Rattle.lines.specs.Texts.{Points, token_of};
ghost use Rattle.build.specs.State.{word_behind};
ghost use Rattle.build.specs.Builders.{SameLent, Room, Appends, word_at, last_word, used};

use crate::builder::Builder;
use lines::texts::Texts;
use lines::traits::area_word;
use lines::words;
use text::copy;

impl Builder<'_> {
    // Appends a token whose text is in the tape.
    fn add_word(&mut self, w: u64)
        requires { (buffer_of w ≡ 0) × (self.old.size.tokens < length self.old.tokens.now) }
        ensures appends { (tape old : Text) → words.Points tape old w → Appends tape self.old self.old.size.tokens
            (words.token_of tape old w) 0 self.new }
        ensures lent { SameLent self.old self.new }
    {
        self.tokens[self.size.tokens] = w;
        self.size.tokens += 1;
    }

    // Appends a token with a copy of its text.
    pub(crate) fn add_text(&mut self, kind: u64, s: &[u8])
        requires { (kind < 8) × Room self.old (length s.now) 1 }
        ensures appends { (tape : Text) → Appends tape self.old self.old.size.tokens (token kind s.now) (length s.now) self.new }
        ensures in_area { buffer_of (word_at self.new self.old.size.tokens) ≡ 1 }
        ensures lent { SameLent self.old self.new }
    {
        // Kept: put by hand: a `Cursor`, made of the area and the place where the text begins, which the token's word wants too, and read
        // for where it ends, would be three statements for three.
        let at = self.size.text;
        let end = at + s.len();
        copy(s, &mut self.area[at..end]);
        self.tokens[self.size.tokens] = area_word(kind, at, s);
        self.size.tokens += 1;
        self.size.text = end;
    }

    // Appends a token of the old listing with a copy of its text, and with what its word knows of it.
    pub(crate) fn add_copy(&mut self, texts: &Texts<'_>, w: u64)
        requires { Points texts.now w × Room self.old (len_of w) 1 }
        ensures appends { Appends texts.now.tape.now self.old self.old.size.tokens (token_of texts.now w) (len_of w) self.new }
        ensures in_area { buffer_of (word_at self.new self.old.size.tokens) ≡ 1 }
        ensures lent { SameLent self.old self.new }
    {
        // Kept: put by hand, as in `add_text`.
        let s = words::text(texts, w);
        let at = self.size.text;
        let end = at + s.len();
        copy(s, &mut self.area[at..end]);
        self.tokens[self.size.tokens] = words::moved(w, at);
        self.size.tokens += 1;
        self.size.text = end;
    }

    // The word of a token of this kind with the text between two places of the area. Of a long text it keeps no traits: such a text may
    // be made by many joins, and each of them would look at the whole of it.
    fn word_between(&self, kind: u64, from: usize, end: usize) -> u64
        requires { (kind < 8) × (from ≤ end) × (end < 65536) × (end ≤ length self.now.area.now) }
        ensures { result ≡ word_behind kind from (take (end - from) (drop from self.now.area.now)) }
    {
        let n = end - from;
        if 16 < n {
            words::token_word(kind, words::IN_AREA, from, n)
        } else {
            area_word(kind, from, &self.area[from..end])
        }
    }

    // Appends a text to that of the last token, which ends where the text in use ends.
    pub(crate) fn extend_last(&mut self, s: &[u8])
        requires { (0 < self.old.size.tokens) × Room self.old (length s.now) 0 × (buffer_of (last_word self.old) ≡ 1)
            × (start_of (last_word self.old) + len_of (last_word self.old) ≡ self.old.size.text) }
        ensures appends { (tape : Text) → Appends tape self.old (self.old.size.tokens - 1)
            (token (kind_of (last_word self.old)) (text_of tape (used self.old) (last_word self.old) ++ s.now)) (length s.now) self.new }
        ensures in_area { buffer_of (word_at self.new (self.old.size.tokens - 1)) ≡ 1 }
        ensures lent { SameLent self.old self.new }
    {
        let n = self.size.tokens - 1;
        // Kept: put by hand, as in `add_text`.
        let at = self.size.text;
        let w = self.tokens[n];
        let end = at + s.len();
        copy(s, &mut self.area[at..end]);
        let longer = self.word_between(words::kind(w), words::start(w), end);
        self.tokens[n] = longer;
        self.size.text = end;
    }

    // Appends a token of the old listing as it is: a text in the tape stays there.
    pub(crate) fn keep(&mut self, texts: &Texts<'_>, w: u64)
        requires { Points texts.now w × Room self.old (len_of w) 1 }
        ensures appends { Appends texts.now.tape.now self.old self.old.size.tokens (token_of texts.now w) (len_of w) self.new }
        ensures lent { SameLent self.old self.new }
    {
        if words::buffer(w) == words::IN_TAPE {
            self.add_word(w);
        } else {
            self.add_copy(texts, w);
        }
    }
}
