// The table of what a walk asks of each line of a listing, so that each line is read once.
#![tactic(auto, using(laws::proofs::Std::tests_of_std))]

ghost use Rattle.std.specs.Prelude.{◌≡◌, ◌<◌, length};
ghost use Rattle.reference.specs.Listing.{◌at◌};
ghost use Rattle.flow.specs.LineForms.{Formed};
ghost use Rattle.flow.specs.Ways.{FormsOf};
ghost use Rattle.lines.specs.Texts.{Listed, bare_listing};

use crate::lineforms::{self, Form, LineForm};
use lines::texts::Listing;
use lines::words;

// What stands in a table before its line is read.
pub const NO_FORM: LineForm = LineForm {
    form: Form::Empty,
    closes: 0,
    opens: 0,
    is_case: false,
    is_entered: false,
    is_opaque: false,
};

// What is asked of line k.
pub fn form_at(listing: &Listing<'_>, k: usize) -> LineForm
    requires { Listed listing.now × (k < length listing.now.lines.now) }
    ensures { Formed (bare_listing listing.now at k).tokens result }
{
    let line = words::line_of(listing.tokens, listing.lines[k]);
    lineforms::line_form(&listing.texts, line)
}

// Puts what is asked of each line in its place of the table.
pub fn gather_forms(listing: &Listing<'_>, forms: &mut [LineForm])
    requires { Listed listing.now × (length forms.old ≡ length listing.now.lines.now) }
    ensures { FormsOf listing.now forms.new }
{
    for k in 0..listing.lines.len() {
        forms[k] = form_at(listing, k);
    }
}
