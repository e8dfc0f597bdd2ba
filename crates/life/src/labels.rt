// The labels of a round: the places of the label lines, in their order. The names are read off the lines: other lines change and go in a
// round, these do not.
ghost use Rattle.std.specs.Prelude.{◌≡◌, ◌≤◌, length};
ghost use Rattle.joining.specs.Places.{label_places, shift_place, shift_places};
ghost use Rattle.life.specs.Labels.{Gathered};
ghost use Rattle.lines.specs.Texts.{Listed, bare_listing};

use lines::texts::Listing;
use lines::{shapes, words};

// A listing, and the places of the round's labels in it.
#[derive(Clone, Copy)]
pub struct LabelledListing<'a> {
    pub listing: Listing<'a>,
    pub labels: &'a [usize],
}

// Puts the places of the label lines into the front of `labels`, and says how many there are.
// Kept: a table that the caller lends, and a count beside it: by a rule of the project memory is fixed and there is no heap.
pub fn gather_labels(listing: &Listing<'_>, labels: &mut [usize]) -> usize
    requires { Listed listing.now × (length listing.now.lines.now ≤ length labels.old) }
    ensures { Gathered (label_places 0 (bare_listing listing.now)) labels.old
        labels.new result }
{
    let mut n = 0;
    for (k, l) in listing.lines.iter().enumerate() {
        if shapes::is_label(&listing.texts, words::line_of(listing.tokens, *l)) {
            labels[n] = k;
            n += 1;
        }
    }
    n
}

// A place when line i is gone.
fn shifted(place: usize, i: usize) -> usize
    ensures { result ≡ shift_place i place }
{
    if i < place { place - 1 } else { place }
}

// The places when line i is gone.
pub fn shift_labels(labels: &mut [usize], i: usize)
    ensures { labels.new ≡ shift_places i labels.old }
{
    for place in labels.iter_mut() {
        *place = shifted(*place, i);
    }
}
