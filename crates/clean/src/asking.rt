// The questions beside the tape's: 1, 9 and 2, before it is read; and the profile's (request M-106), once it is read.
ghost use Rattle.std.specs.Prelude.{◌≡◌};
ghost use Rattle.reference.specs.Options.{option_of};
ghost use Rattle.reference.specs.Listing.{Listing};
ghost use Rattle.reference.specs.Questions.{Passed, read};
ghost use Rattle.reference.specs.Straight.{breaks};
ghost use Rattle.ground.specs.Rules.{rules_of};
ghost use Rattle.answers.specs.Refusals.{refusing};
ghost use Rattle.tape.specs.Questions.{first_no};
ghost use Rattle.clean.specs.Asking.{before_the_tape};
ghost use Rattle.clean.specs.Replies.{outside};
ghost use Rattle.tables.specs.Tables.{Loaded};

use crate::tabled::Tables;
use answers::Reason;
use ground::rules::Rules;
use tape::questions::Totals;

// The question that refuses the settings, or the lengths of what is lent: the output is to have the least length at least.
pub fn asked(
    rules: Rules,
    work_a: usize,
    work_b: usize,
    output: usize,
    least: usize,
) -> Result<(), Reason>
    ensures { refusing result ≡ first_no (before_the_tape (rules_of rules) work_a work_b output least) }
{
    if 2 < rules.convention {
        return Err(Reason::UnknownConvention);
    }
    if 1 < rules.edition {
        return Err(Reason::UnknownEdition);
    }
    if work_a < 49152 || work_b < 49152 || output < least {
        return Err(Reason::TooLittleRoom);
    }
    Ok(())
}

// The first line that breaks the profile, of a tape that was loaded.
fn broken(tape: &[u8], own: &Tables, loaded: Totals) -> Option<usize>
    requires { Loaded tape.now own.now.tokens own.now.lines own.now.addresses loaded }
    ensures { (input : Listing) → read tape.now ≡ Passed input → option_of result ≡ breaks input }
{
    formula::breaks(
        tape,
        &own.tokens[..loaded.tokens],
        &own.lines[..loaded.lines],
    )
}

// The same, where the profile is asked for.
#[tactic(auto, using(laws::proofs::Std::tests_of_std))]
pub fn outside_profile(rules: Rules, tape: &[u8], own: &Tables, loaded: Totals) -> Option<usize>
    requires { Loaded tape.now own.now.tokens own.now.lines own.now.addresses loaded }
    ensures { (input : Listing) → read tape.now ≡ Passed input → option_of result ≡ outside (rules_of rules) input }
{
    if rules.profile {
        broken(tape, own, loaded)
    } else {
        None
    }
}
