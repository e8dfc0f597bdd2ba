// A reply as JSON: an object a line, the name of the file first.
use crate::console::{Trouble, no_memory, print};
use files::front;
use std::alloc::AllocError;

// Prints a text as it stands between quotes, in parts.
pub(crate) fn print_quoted(rt: &HostRuntime, text: &[u8]) -> Result<(), Trouble> {
    let mut page = [0u8; 6144];
    for part in text.chunks(1024) {
        let n = if part.len() <= 1024 {
            reports::put_quoted(part, &mut page)
        } else {
            0
        };
        print(rt, front(&page, n))?;
    }
    Ok(())
}

// Prints an object: the file, and the other members behind it.
pub(crate) fn print_object(
    rt: &HostRuntime,
    name: &[u8],
    rest: Result<String, AllocError>,
) -> Result<(), Trouble> {
    let Ok(rest) = rest else {
        return Err(no_memory(rt));
    };
    print(rt, b"{\"file\":\"")?;
    print_quoted(rt, name)?;
    print(rt, b"\"")?;
    print(rt, rest.as_bytes())?;
    print(rt, b"}\n")
}
