// The words of a right side, copied out of its line: a run of tokens as any other, which stays when the line goes.
ghost use Rattle.std.specs.Prelude.{◌≡◌, ◌≤◌, length, take};
ghost use Rattle.lines.specs.Shapes.{expr_words, Expression};

use lines::shapes::{self, Expr};

// Copies the words of the right side x of a line to the front of `out`.
pub fn copy_expr(line: &[u64], x: Expr, out: &mut [u64])
    requires { Expression line.now x × (x.count ≤ length out.old) }
    ensures words { take x.count out.new ≡ expr_words line.now x }
    ensures room { length out.new ≡ length out.old }
{
    for k in 0..x.count {
        out[k] = shapes::expr_word(line, x, k);
    }
}
