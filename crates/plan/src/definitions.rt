// What an attempt starts from: a line that assigns to a family what does not mention it (the first tests of `try_at` of the Rust).
ghost use Rattle.std.specs.Prelude.{◌≡◌, ◌<◌, get_or};
ghost use Rattle.reference.specs.Join.{reads_here, reads_memory};
ghost use Rattle.lines.specs.Shapes.{expr_words, Expression};
ghost use Rattle.plan.specs.Definitions.{before_at, Defines};
ghost use Rattle.lines.specs.Texts.{Holds, token_of, tokens_of};

use ground::kinds;
use lines::fams::Named;
use lines::shapes::Expr;
use lines::texts::Texts;
use lines::traits::{self, has};
use lines::{fams, shapes, words};

// The register or slot with its width and its lowest bit, the right side, whether the line has a call mark, and whether the right side
// reads memory.
#[derive(Clone, Copy)]
pub struct Definition {
    pub name: Named,
    pub expr: Expr,
    pub calls: bool,
    pub reads: bool,
}

// Whether token k of the right side x of a line reads memory: `*(`, a stack slot, or a Symbol that is not behind `&`.
fn reads_at(texts: &Texts<'_>, line: &[u64], x: Expr, k: usize) -> bool
    requires { Holds texts.now line.now × Expression line.now x × (k < x.count) }
    ensures { result ≡ reads_here (before_at (tokens_of texts.now (expr_words line.now x)) k)
        (token_of texts.now (get_or (expr_words line.now x) k 0)) }
{
    let w = shapes::expr_word(line, x, k);
    match words::kind(w) {
        kinds::KEYWORD => has(texts, w, traits::DEREFERENCE),
        kinds::REGISTER => has(texts, w, traits::SLOT),
        kinds::SYMBOL => {
            k == 0
                || {
                    let before = shapes::expr_word(line, x, k - 1);
                    !has(texts, before, traits::AMPERSAND)
                }
        }
        _ => false,
    }
}

// Whether the right side x of a line reads memory.
fn reads_memory(texts: &Texts<'_>, line: &[u64], x: Expr) -> bool
    requires { Holds texts.now line.now × Expression line.now x }
    ensures { result ≡ reads_memory (tokens_of texts.now (expr_words line.now x)) }
{
    (0..x.count).any(|k| reads_at(texts, line, x, k))
}

// The line as a definition.
pub fn definition_of(texts: &Texts<'_>, line: &[u64]) -> Option<Definition>
    requires { Holds texts.now line.now }
    ensures { Defines texts.now.tape.now texts.now.area.now line.now result }
{
    let x = shapes::assignment(texts, line)?;
    let name = fams::name_of(texts, line[0])?;
    if fams::mentions(texts, line, x, name.family) {
        return None;
    }
    Some(Definition {
        name,
        expr: x,
        calls: shapes::has_call(texts, line),
        reads: reads_memory(texts, line, x),
    })
}
