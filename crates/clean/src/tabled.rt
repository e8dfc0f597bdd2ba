// The tables of a listing that is loaded from a tape, in the frame of the function that fills them.
ghost use Rattle.std.specs.Prelude.{◌≡◌};
ghost use Rattle.reference.specs.Questions.{let_passed◌then◌, Passed, read};
ghost use Rattle.tape.specs.Questions.{checked, sizes_in};
ghost use Rattle.clean.specs.Tabled.{TabledIf};

use answers::Refusal;
use lines::marks::Marks;
use tables::records::LineRecord;
use tape::questions::Totals;

// A word for each token, of the listing and of what its cleaning puts behind it; a word, an address and the marks for each of 256 lines.
#[derive(Drop)]
pub struct Tables {
    pub tokens: [u64; 2048],
    pub lines: [u64; 256],
    pub addresses: [u64; 256],
    pub marks: [Marks; 256],
}

impl Tables {
    pub const EMPTY: Tables = Tables {
        tokens: [0; 2048],
        lines: [0; 256],
        addresses: [0; 256],
        marks: [Marks { low: 0, high: 0 }; 256],
    };

    // Asks the questions of a tape and fills the tables with its listing; the lines go through the records that are lent. Where a question
    // refuses the tape, what then stands in the tables is not said.
    pub fn load(&mut self, tape: &[u8], records: &mut [LineRecord; 256]) -> Result<Totals, Refusal>
        ensures asked { checked result ≡ (let_passed (read tape.now) then λ lines. Passed (sizes_in lines)) }
        ensures loaded { TabledIf tape.now self.new result }
    {
        tables::load(
            tape,
            &mut self.tokens,
            &mut self.lines,
            &mut self.addresses,
            &mut self.marks,
            records,
        )
    }
}
