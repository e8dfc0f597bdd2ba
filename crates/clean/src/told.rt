// What is told of the rounds, in numbers.
use rounds::Tally;

// The attempts of each of three rounds, or the number of rounds and the attempts in all: the numbers of the other setting are 0.
// Kept: the report of the C interface is filled from it, which has a place for each of the five; `Tally` is the enum that it is made from.
#[derive(Clone, Copy, Default)]
pub struct Told {
    pub first: u64,
    pub second: u64,
    pub third: u64,
    pub rounds: u64,
    pub attempts: u64,
}

impl From<Tally> for Told {
    ghost use Rattle.std.specs.Prelude.{◌≡◌};
    ghost use Rattle.reference.specs.Reply as R;
    ghost use Rattle.rounds.specs.Runs.{tally_of};
    ghost use Rattle.clean.specs.Replies.{told_of};

    ghost from_gives = { λ tally t. told_of t ≡ R.told (tally_of tally) };

    #[tactic(auto, unfolding(reference::specs::Reply::told))]
    fn from(tally: Tally) -> Told {
        match tally {
            Tally::Three {
                first,
                second,
                third,
            } => Told {
                first,
                second,
                third,
                ..Told::default()
            },
            Tally::Settled { rounds, attempts } => Told {
                rounds,
                attempts,
                ..Told::default()
            },
        }
    }
}
