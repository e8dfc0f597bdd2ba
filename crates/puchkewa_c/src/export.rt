// The entries for C and Rust (include/puchkewa.h): settings and answers as structs of numbers, by value.
ghost use Rattle.clean.specs.Replies.{Cleans};
ghost use Rattle.puchkewa.specs.Exports.{settings_of, exported};

use puchkewa::{Report, Settings};

// Cleans the listing of a tape, as `clean` does.
#[unsafe(no_mangle)]
pub extern "C" fn puchkewa_clean(
    settings: Settings,
    tape: &[u8],
    work_a: &mut [u8],
    work_b: &mut [u8],
    out: &mut [u8],
) -> Report
    ensures { Cleans (settings_of settings) tape.now work_a.old work_b.old out.old work_a.new
        work_b.new out.new (exported result) }
{
    puchkewa::puchkewa_clean(settings, tape, work_a, work_b, out)
}
