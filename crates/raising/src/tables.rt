// The tables in which cautions are kept.
use flow::LineForm;
use usefacts::Before;

// For each line of the listing as it stands: its set of kinds, what a walk asks of it, and what it tells as an old line of the join at
// hand (None where the join leaves it as it is; where no join is at hand, each is None). Then the places that a value reaches, and the
// words of the right side that is joined. Where no cautions are asked for, all of them are empty.
#[derive(Drop)]
pub struct Raising<'a> {
    pub sets: &'a mut [u16],
    pub forms: &'a mut [LineForm],
    pub parts: &'a mut [Option<Before>],
    pub seen: &'a mut [bool],
    pub expr: &'a mut [u64],
}
