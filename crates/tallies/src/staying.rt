// Whether each callee is called as often in one listing as in another.
ghost use Rattle.std.specs.Prelude.{◌≡◌, leb, true};
ghost use Rattle.std.specs.Bool.{Decides};
ghost use Rattle.std.proofs.Math.Option.{some};
ghost use Rattle.reference.specs.Control.{let_some◌else◌then◌};
ghost use Rattle.reference.specs.Claim.{calls};
ghost use Rattle.reference.specs.Options.{option_of};
ghost use Rattle.tape.specs.Held.{held};
ghost use Rattle.tallies.specs.Ticks.{CallsStay};

use crate::calls::{count_calls, opens};
use crate::casts::count_casts;
use ground::kinds::SYMBOL;
use tape::walk::{Commands, Event};

// Whether a name, if there is one, is called at least as often in the cleaned listing.
fn name_stays(raw: &[u8], cleaned: &[u8], name: Option<&[u8]>) -> bool
    ensures { result ≡ (let_some option_of name.entry else true then
        λ s. leb (calls (some s.now) (held raw.now)) (calls (some s.now) (held cleaned.now))) }
{
    match name {
        Some(name) => count_calls(raw, name) <= count_calls(cleaned, name),
        None => true,
    }
}

// Whether each callee, a name or the cast pointers, is called at least as often in the cleaned listing as in the raw one. It is asked of
// each Symbol that a bracket opens behind.
pub fn calls_stay(raw: &[u8], cleaned: &[u8]) -> bool
    ensures { Decides result (CallsStay (held raw.now) (held cleaned.now)) }
{
    let mut symbol = None;
    for c in Commands::<false>::new(raw) {
        match c.event {
            Event::Line { .. } => symbol = None,
            Event::Marks { .. } => {}
            Event::Token { kind, text } => {
                if opens(kind, text) && !name_stays(raw, cleaned, symbol) {
                    return false;
                }
                symbol = (kind == SYMBOL).then_some(text);
            }
        }
    }
    count_casts(raw) <= count_casts(cleaned)
}
