// The whole run: `optimize` of the Rust. Rounds, ending after one that changed nothing: at most three, or as many as it takes where the
// run is to settle.
// Then the cuts. Before the rounds the facts of each line (what it lacks, and whether it calls) are noted in its word; they are no part of
// the listing. The marks of a line, the lowest and the highest address of it and of all that was joined into it, are in `marks`, by the
// number of the input line. The tables of cautions (crate raising) are begun before the rounds, and are the listing's after each step.
ghost use Rattle.std.specs.Prelude.{◌≡◌, ◌≤◌, true, length};
ghost use Rattle.reference.specs.Run.{drop_dead_results};
ghost use Rattle.ground.specs.Rules.{rules_of};
ghost use Rattle.build.specs.State.{used};
ghost use Rattle.build.specs.Added.{used_words};
ghost use Rattle.cautions.specs.Joins.{none_yet};
ghost use Rattle.cuts.specs.Cuts.{Cut};
ghost use Rattle.cuts.specs.Cautions.{dead_cuts, CutsRaised};
ghost use Rattle.join.specs.Current as current;
ghost use Rattle.join.specs.Current.{Current, used_lines};
ghost use Rattle.join.specs.Contents.{contents, bare_now};
ghost use Rattle.join.specs.Workspaces as workspaces;
ghost use Rattle.join.specs.Workspaces.{SameLent};
ghost use Rattle.raising.specs.Tables as tables;
ghost use Rattle.raising.specs.Tables.{is_on, Room, Kept, sets_now};
ghost use Rattle.rounds.specs.Cautions.{CautionsKept};
ghost use Rattle.rounds.specs.Rounds.{Countable};
ghost use Rattle.rounds.specs.Runs.{Runnable, Gatherable, SameListing, most_rounds, after_round, Few, Rounded, tally_of, told_of, Ran};

use crate::rounds::{Round, propagate_once};
use cuts::drop_dead_results;
use ground::rules::Rules;
use join::Workspace;
use linefacts::gather_facts;
use lines::texts::{Size, Texts};
use raising::{Raising, begin};

// What is told of the rounds: the attempts of each of three, 0 for one that was not made; or, of a run that settled, how many rounds it
// made, the last included, and the attempts of them all.
// Kept: document 01 gives "attempts of each of three rounds (0 for one not run)" as the answer of a call; an `Option` for each would be
// turned back to 0 at once.
#[derive(Clone, Copy)]
pub enum Tally {
    Three { first: u64, second: u64, third: u64 },
    Settled { rounds: u64, attempts: u64 },
}

// What a run left: what is told of the rounds, the lines removed, the results cut, and the listing's size.
#[derive(Clone, Copy)]
pub struct Outcome {
    pub tally: Tally,
    pub removed: u64,
    pub cut: u64,
    pub size: Size,
}

// How far the rounds have come: how many were made, the attempts of each of the first three and of all, the lines removed, and the
// listing's size.
#[derive(Clone, Copy)]
pub struct Progress {
    pub made: usize,
    pub each: [u64; 3],
    pub attempts: u64,
    pub removed: u64,
    pub size: Size,
}

// How many rounds are made of n lines at most. A run that is to settle needs no more than one for each line, and the last.
#[tactic(auto, using(laws::proofs::Std::tests_of_std), unfolding(crate::specs::Runs::most_rounds))]
fn most_rounds(settle: bool, n: usize) -> usize
    requires { n ≤ 256 }
    ensures { result ≡ most_rounds settle n }
{
    if settle { n + 1 } else { 3 }
}

// One round more.
fn after_round(s: Progress, r: Round) -> Progress
    requires { Few s × Countable r }
    ensures { result ≡ after_round s r }
{
    let mut each = s.each;
    if s.made < 3 {
        each[s.made] = r.attempts;
    }
    Progress {
        made: s.made + 1,
        each,
        attempts: s.attempts + r.attempts,
        removed: s.removed + r.removed,
        size: r.size,
    }
}

// What is told of rounds that have come so far.
#[tactic(auto, using(laws::proofs::Std::tests_of_std))]
fn tally_up(settle: bool, s: Progress) -> Tally
    ensures { tally_of result ≡ told_of settle s }
{
    if settle {
        // Kept: a cast, since a count of rounds is an index too: 64 bits hold it, and `u64::try_from` is no plainer, since it asks what to
        // do where they do not.
        Tally::Settled {
            rounds: s.made as u64,
            attempts: s.attempts,
        }
    } else {
        let [first, second, third] = s.each;
        Tally::Three {
            first,
            second,
            third,
        }
    }
}

// The rounds, each with what the one before it left.
fn make_rounds(
    tape: &[u8],
    room: &mut Workspace<'_>,
    raising: &mut Raising<'_>,
    labels: &mut [usize],
    slots: &mut [u8],
    slot_words: &mut [u64],
    size: Size,
    rules: Rules,
) -> Progress
    requires { Runnable tape.now room.old size × Gatherable labels.old slots.old slot_words.old
        × Kept (bare_now (contents tape.now room.old size)) raising.old }
    ensures rounded { Rounded (rules_of rules) (contents tape.now room.old size) raising.old (contents tape.now room.new result.size)
        raising.new result }
    ensures lent { SameLent room.old room.new }
    ensures lent_raising { tables.SameLent raising.old raising.new }
{
    let most = most_rounds(rules.settle, size.lines);
    let mut s = Progress {
        made: 0,
        each: [0; 3],
        attempts: 0,
        removed: 0,
        size,
    };
    for _ in 0..most {
        let r = propagate_once(
            tape, room, raising, labels, slots, slot_words, s.size, rules,
        );
        s = after_round(s, r);
        if r.removed == 0 {
            break;
        }
    }
    s
}

// Notes the facts of each line of the listing in its word.
fn note_facts(tape: &[u8], area: &[u8], tokens: &[u64], lines: &mut [u64], size: Size)
    requires { Current tape.now area.now tokens.now lines.old size }
    ensures { SameListing tape.now area.now tokens.now lines.old size lines.new }
{
    gather_facts(
        &Texts {
            tape,
            area: &area[..size.text],
        },
        &tokens[..size.tokens],
        &mut lines[..size.lines],
    );
}

// Makes the tables of cautions those of the listing, without a kind on any line.
fn begin_cautions<'a>(
    tape: &'a [u8],
    room: &'a Workspace<'_>,
    raising: &mut Raising<'_>,
    size: Size,
)
    requires { workspaces.Current tape.now room.now size × (size.lines ≤ 256) × (is_on raising.old ≡ true → Room raising.old) }
    ensures kept { Kept (bare_now (contents tape.now room.now size)) raising.new }
    ensures none { is_on raising.old ≡ true → sets_now (bare_now (contents tape.now room.now size)) raising.new
        ≡ none_yet (bare_now (contents tape.now room.now size)) }
    ensures lent { tables.SameLent raising.old raising.new }
{
    let listing = room.listing(tape, size);
    begin(&listing, raising);
}

// Cuts the dead results of the listing, and says how many they are.
fn cut_results(
    tape: &[u8],
    area: &[u8],
    tokens: &[u64],
    lines: &mut [u64],
    raising: &mut Raising<'_>,
    labels: &mut [usize],
    size: Size,
    rules: Rules,
) -> u64
    requires { Current tape.now area.now tokens.now lines.old size × (length tokens.now ≤ 65536) × (size.lines ≤ 256)
        × (256 ≤ length labels.old) × Kept (current.bare_now tape.now area.now tokens.now lines.old size) raising.old }
    ensures cut { Cut (drop_dead_results (rules_of rules)) tape.now (used area.now size) (used_words tokens.now size)
        (used_lines lines.old size) (used_lines lines.new size) result }
    ensures raised { CutsRaised (rules_of rules) (dead_cuts (rules_of rules)) tape.now (used area.now size) (used_words tokens.now size)
        (used_lines lines.old size) raising.old (used_lines lines.new size) raising.new }
    ensures lent { tables.SameLent raising.old raising.new }
{
    drop_dead_results(
        &Texts {
            tape,
            area: &area[..size.text],
        },
        &tokens[..size.tokens],
        &mut lines[..size.lines],
        raising,
        labels,
        rules,
    )
}

// The facts are noted and the tables of cautions begun, the rounds made, then the cuts.
// Kept: `note_facts` and `cut_results` take fields of the workspace, each lent anew as `&mut`. It was tried to lend one field as `&` beside
// another as `&mut`, and to take the workspace apart by a pattern: the borrow checker covers neither, and so no proof could be begun.
pub fn optimize(
    tape: &[u8],
    room: &mut Workspace<'_>,
    raising: &mut Raising<'_>,
    labels: &mut [usize],
    slots: &mut [u8],
    slot_words: &mut [u64],
    size: Size,
    rules: Rules,
) -> Outcome
    requires { Runnable tape.now room.old size × Gatherable labels.old slots.old slot_words.old
        × (is_on raising.old ≡ true → Room raising.old) }
    ensures ran { Ran (rules_of rules) (contents tape.now room.old size) (contents tape.now room.new result.size) result }
    ensures cautioned { CautionsKept (rules_of rules) (contents tape.now room.old size) (contents tape.now room.new result.size)
        raising.old raising.new }
    ensures lent { SameLent room.old room.new }
    ensures lent_raising { tables.SameLent raising.old raising.new }
{
    let area = &mut *room.area;
    let tokens = &mut *room.tokens;
    let lines = &mut *room.lines;
    note_facts(tape, area, tokens, lines, size);
    begin_cautions(tape, room, raising, size);
    let s = make_rounds(tape, room, raising, labels, slots, slot_words, size, rules);
    let area = &mut *room.area;
    let tokens = &mut *room.tokens;
    let lines = &mut *room.lines;
    let cut = cut_results(tape, area, tokens, lines, raising, labels, s.size, rules);
    Outcome {
        tally: tally_up(rules.settle, s),
        removed: s.removed,
        cut,
        size: s.size,
    }
}
