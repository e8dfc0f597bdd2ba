// Question 18: whether a command has an address that the other form cannot hold, and where the first such command stands.
ghost use Rattle.std.specs.Prelude.{◌≡◌};
ghost use Rattle.reference.specs.Options.{option_of};
ghost use Rattle.reference.specs.Lists.{any};
ghost use Rattle.tape.specs.Commands.{form_of};
ghost use Rattle.tape.specs.Walk.{event_shown};
ghost use Rattle.offsets.specs.Offsets.{addresses, out_of_reach, wraps, first_with};
ghost use Rattle.offsets.specs.Calls.{bad_for, Read};

use tape::walk::{Commands, Event};

// Whether an address is below the base, or 2^32 or more above it.
fn out_of_reach(base: u64, address: u64) -> bool
    ensures { result ≡ out_of_reach base address }
{
    address < base || 4294967296 <= address - base
}

// Whether the sum of base and offset is above 2^64 - 1.
fn wraps(base: u64, offset: u64) -> bool
    ensures { result ≡ wraps base offset }
{
    base.checked_add(offset).is_none()
}

// Whether an address, in a tape by offset an offset, has no place in the other form.
fn is_refused<const BASED: bool>(address: u64, base: u64) -> bool
    ensures { result ≡ bad_for BASED base address }
{
    if BASED {
        wraps(base, address)
    } else {
        out_of_reach(base, address)
    }
}

// Whether a command has such an address: a line its own, marks either of their two.
fn has_refused<const BASED: bool>(event: &Event<'_>, base: u64) -> bool
    ensures { result ≡ any (bad_for BASED base) (addresses (event_shown event.now)) }
{
    match *event {
        Event::Line {
            address: Some(address),
            ..
        } => is_refused::<BASED>(address, base),
        Event::Marks { low, high } => {
            is_refused::<BASED>(low, base) || is_refused::<BASED>(high, base)
        }
        Event::Line { address: None, .. } => false,
        Event::Token { .. } => false,
    }
}

// The first command of an accepted tape that has such an address.
pub fn first_refused<const BASED: bool>(tape: &[u8], base: u64) -> Option<usize>
    requires { Read BASED tape.now }
    ensures { option_of result ≡ first_with (form_of BASED) (bad_for BASED base) tape.now }
{
    for c in Commands::<BASED>::new(tape) {
        if has_refused::<BASED>(&c.event, base) {
            return Some(c.at);
        }
    }
    None
}
