// One round: `propagate_once` of the Rust.
ghost use Rattle.std.specs.Prelude.{◌≡◌, ◌<◌, length};
ghost use Rattle.reference.specs.Run.{propagate_once};
ghost use Rattle.ground.specs.Rules.{rules_of};
ghost use Rattle.plan.specs.Texts.{slot_names};
ghost use Rattle.raising.specs.Tables as tables;
ghost use Rattle.raising.specs.Tables.{Kept};
ghost use Rattle.join.specs.Attempts.{Attemptable};
ghost use Rattle.join.specs.Contents.{contents, bare_now};
ghost use Rattle.join.specs.Workspaces.{SameLent};
ghost use Rattle.rounds.specs.Rounds.{Countable, Turned, Made, attempts_with};
ghost use Rattle.rounds.specs.Runs.{Runnable, Gatherable};

use ground::rules::Rules;
use join::{Workspace, try_at};
use life::{gather_labels, shift_labels};
use lines::texts::Size;
use plan::slots::{SlotNames, gather_slots};
use raising::Raising;

// How far a round has come: the next line to try, the attempts and the removals so far, and the listing's size.
#[derive(Clone, Copy)]
pub struct Round {
    pub next: usize,
    pub attempts: u64,
    pub removed: u64,
    pub size: Size,
}

// One attempt of a round.
fn turn(
    tape: &[u8],
    room: &mut Workspace<'_>,
    raising: &mut Raising<'_>,
    labels: &mut [usize],
    slots: &SlotNames<'_>,
    r: Round,
    rules: Rules,
) -> Round
    requires { Attemptable tape.now room.old labels.old slots.now r.size × (r.next < r.size.lines) × Countable r
        × Kept (bare_now (contents tape.now room.old r.size)) raising.old }
    ensures turned { Turned (rules_of rules) (slot_names slots.now) (contents tape.now room.old r.size) raising.old labels.old r
        (contents tape.now room.new result.size) raising.new labels.new result }
    ensures lent { SameLent room.old room.new }
    ensures lent_raising { tables.SameLent raising.old raising.new }
{
    let i = r.next;
    let attempts = r.attempts + 1;
    let Some(size) = try_at(tape, room, raising, labels, slots, i, r.size, rules) else {
        return Round {
            next: i + 1,
            attempts,
            ..r
        };
    };
    shift_labels(labels, i);
    Round {
        next: i.saturating_sub(1),
        attempts,
        removed: r.removed + 1,
        size,
    }
}

// The attempts of a round, from line 0 on.
fn turns(
    tape: &[u8],
    room: &mut Workspace<'_>,
    raising: &mut Raising<'_>,
    labels: &mut [usize],
    slots: &SlotNames<'_>,
    size: Size,
    rules: Rules,
) -> Round
    requires { Attemptable tape.now room.old labels.old slots.now size × Kept (bare_now (contents tape.now room.old size)) raising.old }
    ensures made { Made (rules_of rules)
        (attempts_with (rules_of rules) (slot_names slots.now) (contents tape.now room.old size) labels.old)
        (contents tape.now room.old size) raising.old (contents tape.now room.new result.size) raising.new result }
    ensures lent { SameLent room.old room.new }
    ensures lent_raising { tables.SameLent raising.old raising.new }
{
    let mut r = Round {
        next: 0,
        attempts: 0,
        removed: 0,
        size,
    };
    // Kept: a `for` is no plainer: an attempt sets the next line one on or one back, which no range and no iterator yields.
    while r.next < r.size.lines {
        r = turn(tape, room, raising, labels, slots, r, rules);
    }
    r
}

// One round. Labels and addressed slots are gathered as it begins.
// Kept: three slices and no struct of them, here and in `make_rounds` and `optimize`: each attempt that succeeds writes the labels, the
// names are only read once they are gathered, and the cuts take the labels alone. Of a struct each contract would have to say besides
// that its slices are as long as before (`Gatherable`), which the prover knows of a parameter.
pub fn propagate_once(
    tape: &[u8],
    room: &mut Workspace<'_>,
    raising: &mut Raising<'_>,
    labels: &mut [usize],
    slots: &mut [u8],
    slot_words: &mut [u64],
    size: Size,
    rules: Rules,
) -> Round
    requires { Runnable tape.now room.old size × Gatherable labels.old slots.old slot_words.old
        × Kept (bare_now (contents tape.now room.old size)) raising.old }
    ensures made { Made (rules_of rules) (propagate_once (rules_of rules)) (contents tape.now room.old size) raising.old
        (contents tape.now room.new result.size) raising.new result }
    ensures lent { SameLent room.old room.new }
    ensures lent_raising { tables.SameLent raising.old raising.new }
{
    let listing = room.listing(tape, size);
    let known = gather_labels(&listing, labels);
    let names = gather_slots(&listing, slots, slot_words);
    turns(
        tape,
        room,
        raising,
        &mut labels[..known],
        &names,
        size,
        rules,
    )
}
