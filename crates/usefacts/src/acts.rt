// Calls beside a use: whether the line makes a call, and not just one around the use.
#![tactic(auto, using(laws::proofs::Std::tests_of_std))]

ghost use Rattle.std.specs.Prelude.{◌≡◌, ◌<◌, ◌≤◌, eqb, length};
ghost use Rattle.std.proofs.Math.Option.{some};
ghost use Rattle.std.proofs.Math.Seq.{slice};
ghost use Rattle.reference.specs.Shapes.{call_in};
ghost use Rattle.cautions.specs.Texts.{frame};
ghost use Rattle.cautions.specs.Values.{calls, in_brackets, acts_beside};
ghost use Rattle.lines.specs.Texts.{Holds, tokens_of};

use lines::shapes;
use lines::texts::Texts;

// Whether the call at c, the first of a line, is the only one.
#[tactic(auto, using(crate::proofs::Calling::lone_by))]
fn is_only_call(texts: &Texts<'_>, line: &[u64], c: usize) -> bool
    requires { Holds texts.now line.now × (c < length line.now) × (call_in (tokens_of texts.now line.now) ≡ some c) }
    ensures { result ≡ eqb (calls (tokens_of texts.now line.now)) 1 }
{
    !shapes::has_call(texts, &line[c + 1..])
}

// Whether behind the callee at c a bracket is open at the place u, and nothing stands outside it.
#[tactic(auto, using(crate::proofs::Calling::enclosed))]
fn encloses(texts: &Texts<'_>, line: &[u64], c: usize, u: usize) -> bool
    requires { Holds texts.now line.now × (u ≤ length line.now) × (length line.now < 65536) }
    ensures { result ≡ in_brackets (frame (slice c u (tokens_of texts.now line.now))) }
{
    if u <= c {
        return false;
    }
    let f = flow::frame_of(texts, &line[c..u]);
    0 < f.depth && f.plain
}

// Whether a line makes a call, and not just one around the use at u.
#[tactic(auto, using(crate::proofs::Calling::acting))]
pub fn acts_beside(texts: &Texts<'_>, line: &[u64], u: usize) -> bool
    requires { Holds texts.now line.now × (u < length line.now) × (length line.now < 65536) }
    ensures { result ≡ acts_beside (tokens_of texts.now line.now) u }
{
    let Some(c) = shapes::call_at(texts, line) else {
        return false;
    };
    if !is_only_call(texts, line, c) {
        return true;
    }
    !encloses(texts, line, c, u)
}
