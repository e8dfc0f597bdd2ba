// The entry for C and Rust that tells which finished line may mean something else than the raw lines, and why.
ghost use Rattle.std.specs.Prelude.{◌≡◌, length};
ghost use Rattle.answers.specs.Answers.{measured, in_numbers, numbers_of};
ghost use Rattle.cautioned.specs.Replies.{cautions_reply, Leaves};
ghost use Rattle.puchkewa.specs.Exports.{settings_of};

use answers::Told;
use puchkewa::Settings;

// Tells the cautions of a tape's cleaning, as `cautions` does.
#[unsafe(no_mangle)]
pub extern "C" fn puchkewa_cautions(
    settings: Settings,
    tape: &[u8],
    work_a: &mut [u8],
    work_b: &mut [u8],
    out: &mut [u8],
) -> Told
    ensures result_value { numbers_of result ≡ in_numbers (measured (cautions_reply (settings_of settings) tape.now
        (length work_a.old) (length work_b.old) (length out.old))) }
    ensures lent { Leaves (cautions_reply (settings_of settings) tape.now (length work_a.old) (length work_b.old) (length out.old))
        work_a.old work_b.old out.old work_a.new work_b.new out.new }
{
    puchkewa::puchkewa_cautions(settings, tape, work_a, work_b, out)
}
