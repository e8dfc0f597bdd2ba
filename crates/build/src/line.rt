// A line of the old listing, kept as it is or rewritten, at the end of the set that is being built.
// Kept: the old texts and the old token words stand side by side: the struct of both, `Listing`, holds the line words too, which callers
// write while the lines are appended.
ghost use Rattle.std.specs.Prelude.{length};
ghost use Rattle.reference.specs.Claim.{text_in};
ghost use Rattle.lines.specs.Texts.{tokens_of, Holds};
ghost use Rattle.build.specs.Builders.{SameLent, Room, LineAdded, Keepable, Kept, Rewritable, Rewritten};

use crate::builder::Builder;
use crate::merge::Substitution;
use lines::texts::Texts;
use lines::words;

impl Builder<'_> {
    // Appends the tokens of an old line as they are.
    fn keep_tokens(&mut self, texts: &Texts<'_>, line: &[u64])
        requires { Holds texts.now line.now × Room self.old (text_in (tokens_of texts.now line.now)) (length line.now) }
        ensures added { LineAdded texts.now.tape.now self.old (tokens_of texts.now line.now)
            (text_in (tokens_of texts.now line.now)) (length line.now) self.new }
        ensures lent { SameLent self.old self.new }
    {
        for w in line {
            self.keep(texts, *w);
        }
    }

    // Appends the line l of the old listing as it is, and answers its new word.
    pub fn keep_line(&mut self, texts: &Texts<'_>, old_tokens: &[u64], l: u64) -> u64
        requires { Keepable texts.now old_tokens.now l self.old }
        ensures kept { Kept texts.now old_tokens.now l self.old self.new result }
        ensures lent { SameLent self.old self.new }
    {
        let from = self.size.tokens;
        self.keep_tokens(texts, words::line_of(old_tokens, l));
        words::with_tokens(l, from, self.size.tokens - from)
    }

    // Appends the line l of the old listing with the right side of the line `source` for each token of the family, joined and folded, and
    // answers its new word.
    pub fn rewrite_line(
        &mut self,
        texts: &Texts<'_>,
        old_tokens: &[u64],
        source: u64,
        l: u64,
        s: Substitution,
        edition: u8,
    ) -> u64
        requires { Rewritable texts.now old_tokens.now source s l self.old }
        ensures rewritten { Rewritten edition texts.now old_tokens.now source s l self.old self.new result }
        ensures lent { SameLent self.old self.new }
    {
        let from = self.size.tokens;
        self.merge(
            texts,
            words::line_of(old_tokens, source),
            words::line_of(old_tokens, l),
            s,
        );
        self.fold_last(texts.tape, from, edition);
        words::with_tokens(l, from, self.size.tokens - from)
    }
}
