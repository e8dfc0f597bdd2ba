// The listing of a tape, loaded to be asked for the profile.
ghost use Rattle.std.specs.Prelude.{◌≡◌, ◌≤◌, length};
ghost use Rattle.reference.specs.Questions.{let_passed◌then◌, Passed, read};
ghost use Rattle.tape.specs.Questions.{checked, sizes_in};
ghost use Rattle.formula.specs.Tabled.{TabledIf};

use answers::Refusal;
use lines::marks::Marks;
use tables::records::BLANK;
use tape::questions::Totals;

// Asks the questions of a tape and fills the tables with its listing. The records that the lines go through stand in this frame, and so do
// the lines' addresses and marks: the profile does not ask for them.
pub fn load(tape: &[u8], tokens: &mut [u64], lines: &mut [u64]) -> Result<Totals, Refusal>
    requires { (1024 ≤ length tokens.old) × (256 ≤ length lines.old) }
    ensures asked { checked result ≡ (let_passed (read tape.now) then λ lines. Passed (sizes_in lines)) }
    ensures loaded { TabledIf tape.now tokens.new lines.new result }
{
    let mut addresses = [0u64; 256];
    let mut marks = [Marks { low: 0, high: 0 }; 256];
    let mut records = [BLANK; 256];
    tables::load(
        tape,
        tokens,
        lines,
        &mut addresses,
        &mut marks,
        &mut records,
    )
}
