// The cuts: `drop_dead_results` of the Rust. The `rax = ` or `eax = ` of a call whose result is never read is cut off, after the rounds.
// Where cautions are asked for, each cut puts its kinds on the lines (crate raising).
#![tactic(auto)]

ghost use Rattle.std.specs.Prelude.{◌≡◌, ◌<◌, ◌≤◌, length};
ghost use Rattle.reference.specs.Run.{dead_result, drop_dead_results};
ghost use Rattle.joining.specs.Rounds.{cuts};
ghost use Rattle.ground.specs.Rules.{rules_of};
ghost use Rattle.lines.specs.Lines.{Listed};
ghost use Rattle.lines.specs.Texts.{Holds, bare_listing, tokens_of};
ghost use Rattle.life.specs.Labels.{Labelled, labels_of};
ghost use Rattle.raising.specs.Tables.{SameLent};
ghost use Rattle.cuts.specs.Cuts.{keeps_result};
ghost use Rattle.cuts.specs.Cautions.{cuts_with, dead_cuts};
ghost use Rattle.cuts.specs.Texts.{Cuttable, labels_now, Dropped, Cut, Kept, DropRaised, CutsRaised};

use ground::rules::Rules;
use life::{Followed, LabelledListing, dead_after, gather_labels};
use lines::texts::{Listing, Texts};
use lines::{shapes, words};
use names::RAX;
use raising::{Raising, after_cut, before_cut};
use text::{is_result_name, same};

// Whether a line assigns the result of a call to rax or eax.
#[tactic(auto, using(crate::proofs::Cutting::called_inside))]
fn keeps_result(texts: &Texts<'_>, line: &[u64]) -> bool
    requires { Holds texts.now line.now }
    ensures { result ≡ keeps_result (tokens_of texts.now line.now) }
{
    shapes::call_at(texts, line) == Some(2)
        && is_result_name(words::text(texts, line[0]))
        && same(words::text(texts, line[1]), b" = ")
}

// Whether line i assigns a result that is never read.
fn is_dead_result(scope: &LabelledListing<'_>, i: usize, rules: Rules) -> bool
    requires { Labelled scope.now × (i < length scope.now.listing.lines.now) }
    ensures { result ≡ dead_result (rules_of rules) (labels_of scope.now) (bare_listing scope.now.listing) i }
{
    let l = scope.listing.lines[i];
    let v = Followed {
        family: RAX,
        indent: words::indent(l),
        start: i,
        rules,
    };
    let line = words::line_of(scope.listing.tokens, l);
    keeps_result(&scope.listing.texts, line) && dead_after(scope, i, v)
}

// Cuts the result of line i off, if it is never read, and says whether it is.
// Kept: texts, tokens, lines and labels apart, here and below: the lines are written between two questions, so no `LabelledListing`, which
// shares them, can be held over the writing; it is made anew for each question.
fn drop_at<'a>(
    texts: &Texts<'a>,
    tokens: &[u64],
    lines: &mut [u64],
    raising: &mut Raising<'_>,
    labels: &'a [usize],
    i: usize,
    rules: Rules,
) -> bool
    requires { Cuttable texts.now tokens.now lines.old labels.now × (i < length lines.old)
        × Kept texts.now tokens.now lines.old raising.old }
    ensures dropped { Dropped (rules_of rules) texts.now tokens.now lines.old labels.now i lines.new result }
    ensures raised { DropRaised (rules_of rules) texts.now tokens.now lines.old labels.now i raising.old lines.new raising.new }
    ensures lent { SameLent raising.old raising.new }
{
    let scope = LabelledListing {
        listing: Listing {
            texts: *texts,
            tokens,
            lines,
        },
        labels,
    };
    if !is_dead_result(&scope, i, rules) {
        return false;
    }
    before_cut(&scope.listing, i, rules, raising);
    let l = lines[i];
    lines[i] = words::with_tokens(l, words::first(l) + 2, words::count(l) - 2);
    let left = Listing {
        texts: *texts,
        tokens,
        lines,
    };
    after_cut(&left, i, raising);
    true
}

// Cuts the dead results of all lines, in turn, the labels standing at these places, and says how many results that is.
fn drop_results<'a>(
    texts: &Texts<'a>,
    tokens: &[u64],
    lines: &mut [u64],
    raising: &mut Raising<'_>,
    labels: &'a [usize],
    rules: Rules,
) -> u64
    requires { Cuttable texts.now tokens.now lines.old labels.now × Kept texts.now tokens.now lines.old raising.old }
    ensures cut { Cut (cuts (rules_of rules) (labels_now texts.now tokens.now lines.old labels.now) 0) texts.now tokens.now lines.old
        lines.new result }
    ensures raised { CutsRaised (rules_of rules) (cuts_with (rules_of rules) (labels_now texts.now tokens.now lines.old labels.now))
        texts.now tokens.now lines.old raising.old lines.new raising.new }
    ensures lent { SameLent raising.old raising.new }
{
    let mut cut = 0;
    for i in 0..lines.len() {
        if drop_at(texts, tokens, lines, raising, labels, i, rules) {
            cut += 1;
        }
    }
    cut
}

// `rax = f(..);` becomes `f(..);` where the result is never read; says how often.
pub fn drop_dead_results(
    texts: &Texts<'_>,
    tokens: &[u64],
    lines: &mut [u64],
    raising: &mut Raising<'_>,
    labels: &mut [usize],
    rules: Rules,
) -> u64
    requires { Listed texts.now.tape.now texts.now.area.now tokens.now lines.old × (length tokens.now ≤ 65536)
        × (length lines.old ≤ 256) × (256 ≤ length labels.old) × Kept texts.now tokens.now lines.old raising.old }
    ensures cut { Cut (drop_dead_results (rules_of rules)) texts.now tokens.now lines.old lines.new result }
    ensures raised { CutsRaised (rules_of rules) (dead_cuts (rules_of rules)) texts.now tokens.now lines.old raising.old
        lines.new raising.new }
    ensures lent { SameLent raising.old raising.new }
{
    let listing = Listing {
        texts: *texts,
        tokens,
        lines,
    };
    let known = gather_labels(&listing, labels);
    // The texts are lent again, for as long as the labels.
    drop_results(&*texts, tokens, lines, raising, &labels[..known], rules)
}
