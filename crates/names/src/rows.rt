// A row of fixed-width names: three bytes each, the last a 0 where the name has two.
//
// Kept: document 01 names this form for the table of families: an array of arrays of fixed-width names. The high bytes and r8 to r11 are
// rows of the same form, so that one search (`column_in`) serves all three.
ghost use Rattle.std.specs.Prelude.{◌≡◌};
ghost use Rattle.reference.specs.Text.{◌≟◌};
ghost use Rattle.names.specs.Tables.{unpadded, Column};

use text::same;

// Whether s is the name.
#[tactic(auto, using(laws::proofs::Std::tests_of_std), unfolding(crate::specs::Tables::unpadded))]
fn is_name(s: &[u8], name: &[u8; 3]) -> bool
    ensures { result ≡ (unpadded name.now ≟ s.now) }
{
    if name[2] == 0 {
        same(&name[..2], s)
    } else {
        same(name, s)
    }
}

// The place of s in the row.
pub fn column_in(s: &[u8], row: &[[u8; 3]; 4]) -> Option<usize>
    ensures { Column row.now s.now result }
{
    row.iter().position(|name| is_name(s, name))
}
