// Tokens joined one by one (`merge` of the Rust): Punct to Punct and Text to Text. While a line is merged, what may be joined has its text
// in the area, so that joining only extends the end.
// Kept: a line and its right side stand side by side, `source` and `x`: a struct of both would be put together in `push_used` for each
// token of the family, and taken apart in `push_expr` again, since crate lines takes the two.
ghost use Rattle.std.specs.Prelude.{◌≡◌, true, [], ◌∷◌, ◌≤◌, ◌<◌, length};
ghost use Rattle.reference.specs.Text.{Text};
ghost use Rattle.reference.specs.Listing.{token};
ghost use Rattle.reference.specs.Claim.{text_in};
ghost use Rattle.reference.specs.Numbers as numbers;
ghost use Rattle.lines.specs.Words.{kind_of};
ghost use Rattle.lines.specs.Texts.{token_of, tokens_of, Points, Holds};
ghost use Rattle.lines.specs.Shapes.{expr_words, Expression};
ghost use Rattle.build.specs.State as state;
ghost use Rattle.build.specs.State.{joinable};
ghost use Rattle.build.specs.Builders.{SameLent, Room, Built, Extendable, Ready, Pushed, LineAdded};
ghost use Rattle.build.specs.Substitution.{bracketed};
ghost use Rattle.build.specs.Texts.{used_as, substituted, Substitutes};

use crate::builder::Builder;
use ground::kinds;
use lines::fams::{Fam, is_of};
use lines::shapes::{Expr, expr_word};
use lines::texts::Texts;
use lines::words;

#[tactic(auto, using(laws::proofs::Std::tests_of_std), unfolding(crate::specs::State::joinable))]
fn is_joined(kind: u64) -> bool
    ensures { result ≡ joinable kind }
{
    kind == kinds::PUNCT || kind == kinds::PLAIN
}

// What takes the place of each token of a family: the right side of the line that is joined, in brackets or without.
#[derive(Clone, Copy)]
pub struct Substitution {
    pub family: Fam,
    pub expr: Expr,
    pub brackets: bool,
}

// Each `push` appends to the line that began at `from`.
impl Builder<'_> {
    // Whether a token of this kind is joined to the last token of the line that began at `from`.
    #[tactic(auto, using(laws::proofs::Std::tests_of_std), unfolding(crate::specs::State::extends))]
    fn extends(&self, kind: u64, from: usize) -> bool
        requires { self.now.size.tokens ≤ length self.now.tokens.now }
        ensures { result ≡ state.extends kind self.now.tokens.now from self.now.size }
    {
        let n = self.size.tokens;
        from < n && words::kind(self.tokens[n - 1]) == kind
    }

    // Appends a Punct or a Text.
    fn push_text(&mut self, kind: u64, s: &[u8], from: usize)
        requires { (joinable kind ≡ true) × (kind < 8) × Extendable self.old from × Room self.old (length s.now) 1 }
        ensures pushed { (tape : Text) → Built tape self.old from → Pushed tape self.old from (token kind s.now ∷ []) self.new }
        ensures lent { SameLent self.old self.new }
    {
        if self.extends(kind, from) {
            self.extend_last(s);
        } else {
            self.add_text(kind, s);
        }
    }

    // Appends a Punct or a Text of the old listing.
    fn push_joined(&mut self, texts: &Texts<'_>, w: u64, from: usize)
        requires { (joinable (kind_of w) ≡ true) × Points texts.now w
            × Ready texts.now.tape.now self.old from (token_of texts.now w ∷ []) }
        ensures pushed { Pushed texts.now.tape.now self.old from (token_of texts.now w ∷ []) self.new }
        ensures lent { SameLent self.old self.new }
    {
        if self.extends(words::kind(w), from) {
            self.extend_last(words::text(texts, w));
        } else {
            self.add_copy(texts, w);
        }
    }

    // Appends a token of the old listing.
    fn push(&mut self, texts: &Texts<'_>, w: u64, from: usize)
        requires { Points texts.now w × Ready texts.now.tape.now self.old from (token_of texts.now w ∷ []) }
        ensures pushed { Pushed texts.now.tape.now self.old from (token_of texts.now w ∷ []) self.new }
        ensures lent { SameLent self.old self.new }
    {
        if is_joined(words::kind(w)) {
            self.push_joined(texts, w, from);
        } else {
            self.keep(texts, w);
        }
    }

    // Appends the right side x of the old line `source`.
    fn push_expr(&mut self, texts: &Texts<'_>, source: &[u64], x: Expr, from: usize)
        requires { Holds texts.now source.now × Expression source.now x
            × Ready texts.now.tape.now self.old from (tokens_of texts.now (expr_words source.now x)) }
        ensures pushed { Pushed texts.now.tape.now self.old from (tokens_of texts.now (expr_words source.now x)) self.new }
        ensures lent { SameLent self.old self.new }
    {
        for k in 0..x.count {
            self.push(texts, expr_word(source, x, k), from);
        }
    }

    // Appends the right side x of the old line `source`, in brackets.
    fn push_bracketed(&mut self, texts: &Texts<'_>, source: &[u64], x: Expr, from: usize)
        requires { Holds texts.now source.now × Expression source.now x
            × Ready texts.now.tape.now self.old from (bracketed (tokens_of texts.now (expr_words source.now x))) }
        ensures pushed { Pushed texts.now.tape.now self.old from (bracketed (tokens_of texts.now (expr_words source.now x))) self.new }
        ensures lent { SameLent self.old self.new }
    {
        self.push_text(kinds::PUNCT, b"(", from);
        self.push_expr(texts, source, x, from);
        self.push_text(kinds::PUNCT, b")", from);
    }

    // Appends a token of the old line, or the right side where the token is of the family.
    fn push_used(&mut self, texts: &Texts<'_>, source: &[u64], w: u64, s: Substitution, from: usize)
        requires { Substitutes texts.now source.now s × Points texts.now w
            × Ready texts.now.tape.now self.old from (used_as texts.now source.now s (token_of texts.now w)) }
        ensures pushed { Pushed texts.now.tape.now self.old from (used_as texts.now source.now s (token_of texts.now w)) self.new }
        ensures lent { SameLent self.old self.new }
    {
        let Substitution {
            family,
            expr,
            brackets,
        } = s;
        if !is_of(texts, w, family) {
            self.push(texts, w, from);
        } else if brackets {
            self.push_bracketed(texts, source, expr, from);
        } else {
            self.push_expr(texts, source, expr, from);
        }
    }

    // Appends the old line with the right side for each token of the family.
    pub(crate) fn merge(&mut self, texts: &Texts<'_>, source: &[u64], line: &[u64], s: Substitution)
        requires { Substitutes texts.now source.now s × Holds texts.now line.now
            × Room self.old (text_in (substituted texts.now source.now s line.now))
            (length (substituted texts.now source.now s line.now)) }
        ensures added { LineAdded texts.now.tape.now self.old
            (numbers.merge (substituted texts.now source.now s line.now))
            (text_in (substituted texts.now source.now s line.now)) (length (substituted texts.now source.now s line.now)) self.new }
        ensures lent { SameLent self.old self.new }
    {
        let from = self.size.tokens;
        for w in line {
            self.push_used(texts, source, *w, s, from);
        }
    }
}
