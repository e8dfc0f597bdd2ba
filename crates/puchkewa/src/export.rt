// The entries for C and Rust (include/puchkewa.h): settings and answers as structs of numbers, by value.
ghost use Rattle.clean.specs.Replies.{Cleans};
ghost use Rattle.puchkewa.specs.Exports.{settings_of, exported};

use answers::Refusal;
use clean::{Finished, Told, clean};
use ground::rules::Rules;

// The settings of a call.
// Kept: beside `Rules` and `Finished`, the C interface's own structs: their fields and their order are those of include/puchkewa.h.
#[repr(C)]
#[derive(Clone, Copy, Debug, PartialEq, Eq)]
pub struct Settings {
    pub convention: u8,
    pub settle: bool,
    pub edition: u8,
    pub parts: bool,
    pub profile: bool,
}

// `refusal` is 0 when finished, else the number of the question that refused, at `place`; then all other numbers are 0.
#[repr(C)]
#[derive(Clone, Copy, Debug, Default, PartialEq, Eq)]
pub struct Report {
    pub refusal: u64,
    pub place: u64,
    pub length: u64,
    pub attempts_1: u64,
    pub attempts_2: u64,
    pub attempts_3: u64,
    pub removed: u64,
    pub cut: u64,
    pub rounds: u64,
    pub attempts: u64,
}

impl From<Settings> for Rules {
    ghost use Rattle.std.specs.Prelude.{◌≡◌};
    ghost use Rattle.ground.specs.Rules.{rules_of};
    ghost use Rattle.puchkewa.specs.Exports.{settings_of};

    ghost from_gives = { λ settings rules. rules_of rules ≡ settings_of settings };

    fn from(settings: Settings) -> Rules {
        Rules {
            convention: settings.convention,
            settle: settings.settle,
            edition: settings.edition,
            parts: settings.parts,
            profile: settings.profile,
        }
    }
}

impl From<Result<Finished, Refusal>> for Report {
    ghost use Rattle.std.specs.Prelude.{◌≡◌};
    ghost use Rattle.clean.specs.Replies.{report_of};
    ghost use Rattle.puchkewa.specs.Exports.{exported};

    ghost from_gives = { λ reply report. exported report ≡ report_of reply };

    #[tactic(auto, unfolding(reference::specs::Reply::told))]
    fn from(reply: Result<Finished, Refusal>) -> Report {
        match reply {
            Err(refusal) => Report {
                refusal: refusal.reason.number(),
                place: refusal.place,
                ..Report::default()
            },
            Ok(f) => {
                let t = Told::from(f.tally);
                Report {
                    // Kept: a cast: the C interface tells a length as a `u64`, which has no `From` of `usize`, and the error of `try_from`
                    // cannot come.
                    length: f.length as u64,
                    attempts_1: t.first,
                    attempts_2: t.second,
                    attempts_3: t.third,
                    removed: f.removed,
                    cut: f.cut,
                    rounds: t.rounds,
                    attempts: t.attempts,
                    ..Report::default()
                }
            }
        }
    }
}

// Cleans the listing of a tape, as `clean` does.
pub fn puchkewa_clean(
    settings: Settings,
    tape: &[u8],
    work_a: &mut [u8],
    work_b: &mut [u8],
    out: &mut [u8],
) -> Report
    ensures { Cleans (settings_of settings) tape.now work_a.old work_b.old out.old work_a.new
        work_b.new out.new (exported result) }
{
    Report::from(clean(Rules::from(settings), tape, work_a, work_b, out))
}
