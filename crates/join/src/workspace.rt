// What the attempts of a run work in.
ghost use Rattle.join.specs.Workspaces.{Current, Stands};

use lines::marks::Marks;
use lines::texts::{Listing, Size, Texts};

// Lent slices: the listing's rewritten texts, its token words and its line words; a second set, in which an attempt builds the lines that
// it changes; and the marks, by the number of the input line.
// Kept: the listing's size is a parameter beside the workspace, and no field of it: `Round`, `Progress` and `Outcome` of crate rounds have
// the size that was left, and the contracts of a turn, a round and a run take it from there (`contents`). With a field besides, each
// would have to say that the two are the same.
#[derive(Drop)]
pub struct Workspace<'a> {
    pub area: &'a mut [u8],
    pub tokens: &'a mut [u64],
    pub lines: &'a mut [u64],
    pub area2: &'a mut [u8],
    pub tokens2: &'a mut [u64],
    pub marks: &'a mut [Marks],
}

impl Workspace<'_> {
    // The listing that stands in the first set. One lifetime for both: `Listing` has one.
    pub fn listing<'a>(&'a self, tape: &'a [u8], size: Size) -> Listing<'a>
        requires { Current tape.now self.now size }
        ensures { Stands tape.now self.now size result }
    {
        Listing {
            texts: Texts {
                tape,
                area: &self.area[..size.text],
            },
            tokens: &self.tokens[..size.tokens],
            lines: &self.lines[..size.lines],
        }
    }
}
