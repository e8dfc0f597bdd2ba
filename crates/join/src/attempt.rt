// One attempt. The listing is always in the first set, area, tokens and lines, as far as its size says; in the second a successful attempt
// builds the new one. The tables of cautions are raised by the listing as it stands before the plan is carried out, and after it.
ghost use Rattle.std.specs.Prelude.{◌≡◌, ◌≤◌, ◌<◌, true, length};
ghost use Rattle.reference.specs.Listing as reference;
ghost use Rattle.reference.specs.Rules as R;
ghost use Rattle.joining.specs.Limits.{RunLimits};
ghost use Rattle.joining.specs.Plan.{Plan, act};
ghost use Rattle.ground.specs.Rules.{rules_of};
ghost use Rattle.plan.specs.Texts.{slot_names};
ghost use Rattle.raising.specs.Halfway.{Halfway};
ghost use Rattle.raising.specs.Steps.{Raised};
ghost use Rattle.raising.specs.Tables as tables;
ghost use Rattle.raising.specs.Tables.{is_on, Room, Kept};
ghost use Rattle.join.specs.Attempts.{Attemptable, Attempted, Decided};
ghost use Rattle.join.specs.Cautions.{plan_now, AttemptRaised};
ghost use Rattle.join.specs.Contents.{contents, bare_now};
ghost use Rattle.join.specs.Workspaces.{SameLent, Current, Plannable};

use crate::apply::apply;
use crate::workspace::Workspace;
use ground::rules::Rules;
use life::LabelledListing;
use lines::texts::Size;
use plan::plans::{Join, decide};
use plan::slots::SlotNames;
use raising::{Raising, after_join, before_join};

// The plan of the attempt at line i. One lifetime for the three: `LabelledListing` has one.
fn plan_at<'a>(
    tape: &'a [u8],
    room: &'a Workspace<'_>,
    labels: &'a [usize],
    slots: &SlotNames<'_>,
    i: usize,
    size: Size,
    rules: Rules,
) -> Option<Join>
    requires { Attemptable tape.now room.now labels.now slots.now size × (i < size.lines) }
    ensures { Decided (rules_of rules) (slot_names slots.now) (contents tape.now room.now size) labels.now i result }
{
    let listing = room.listing(tape, size);
    decide(&LabelledListing { listing, labels }, slots, i, rules)
}

// What the plan j raises by the listing as it stands; answers the kinds that each line that it rewrites gets, but for its own.
fn raise_before<'a>(
    tape: &'a [u8],
    room: &'a Workspace<'_>,
    raising: &mut Raising<'_>,
    j: Join,
    size: Size,
    rules: Rules,
) -> u16
    requires { Plannable (rules_of rules) tape.now room.now size j × Current tape.now room.now size
        × RunLimits (bare_now (contents tape.now room.now size)) × (length room.now.tokens.now ≤ 65536)
        × Kept (bare_now (contents tape.now room.now size)) raising.old }
    ensures halfway { Halfway (rules_of rules) (bare_now (contents tape.now room.now size)) j.line
        (plan_now (contents tape.now room.now size) j) raising.old raising.new result }
    ensures lent { tables.SameLent raising.old raising.new }
{
    let listing = room.listing(tape, size);
    before_join(&listing, j, rules, raising)
}

// And by the listing that it left, its line i being gone.
fn raise_after<'a>(
    tape: &'a [u8],
    room: &'a Workspace<'_>,
    raising: &mut Raising<'_>,
    i: usize,
    own: u16,
    size: Size,
)
    requires { Current tape.now room.now size × (size.lines < 256) × (i ≤ size.lines) × (is_on raising.old ≡ true → Room raising.old) }
    ensures raised { (rules : R.Rules) (lines : reference.Listing) (p : Plan) (before : Raising)
        → Halfway rules lines i p before raising.old own
        → bare_now (contents tape.now room.now size) ≡ act rules lines i p → i < length lines → Raised rules lines i p before raising.new }
    ensures lent { tables.SameLent raising.old raising.new }
{
    let listing = room.listing(tape, size);
    after_join(&listing, i, own, raising);
}

// One attempt at line i: joins its definition into its uses and removes it, and answers the size of the listing that it leaves; or None,
// where it changes nothing. `labels` are the places of the round's labels, `slots` the names that were addressed when it began.
// Kept: the two beside each other: between the attempts of a round the labels are written (`shift_labels`), and the names are only read.
pub fn try_at(
    tape: &[u8],
    room: &mut Workspace<'_>,
    raising: &mut Raising<'_>,
    labels: &[usize],
    slots: &SlotNames<'_>,
    i: usize,
    size: Size,
    rules: Rules,
) -> Option<Size>
    requires { Attemptable tape.now room.old labels.now slots.now size × (i < size.lines)
        × Kept (bare_now (contents tape.now room.old size)) raising.old }
    ensures attempted { Attempted (rules_of rules) (slot_names slots.now) (contents tape.now room.old size) labels.now i
        (contents tape.now room.new) result }
    ensures raised { AttemptRaised (rules_of rules) (contents tape.now room.old size) labels.now i raising.old
        (contents tape.now room.new) raising.new result }
    ensures lent { SameLent room.old room.new }
    ensures lent_raising { tables.SameLent raising.old raising.new }
{
    let j = plan_at(tape, room, labels, slots, i, size, rules)?;
    let own = raise_before(tape, room, raising, j, size, rules);
    let after = apply(tape, room, j, rules, size);
    raise_after(tape, room, raising, j.line, own, after);
    Some(after)
}
