// The ten kinds of caution: the bit of each in a set, its name, and its sentence in a plant programmer's words.
ghost use Rattle.std.specs.Prelude.{◌≡◌};
ghost use Rattle.caution_words.specs.Told.{bit_of, name_of, sentence_of, has};

// In the order of their bits.
#[derive(Clone, Copy, Debug, PartialEq, Eq)]
pub enum Caution {
    OddForm,
    StillRead,
    Overwritten,
    CallMoved,
    ReadMoved,
    OtherWidth,
    OtherText,
    OddNumber,
    Slot,
    HandedOver,
}

// All of them.
pub const ALL: [Caution; 10] = [
    Caution::OddForm,
    Caution::StillRead,
    Caution::Overwritten,
    Caution::CallMoved,
    Caution::ReadMoved,
    Caution::OtherWidth,
    Caution::OtherText,
    Caution::OddNumber,
    Caution::Slot,
    Caution::HandedOver,
];

impl Caution {
    pub fn bit(self) -> u16
        ensures { result ≡ bit_of self }
    {
        match self {
            Caution::OddForm => 1,
            Caution::StillRead => 2,
            Caution::Overwritten => 4,
            Caution::CallMoved => 8,
            Caution::ReadMoved => 16,
            Caution::OtherWidth => 32,
            Caution::OtherText => 64,
            Caution::OddNumber => 128,
            Caution::Slot => 256,
            Caution::HandedOver => 512,
        }
    }

    // Whether a set has it.
    pub fn is_in(self, set: u16) -> bool
        ensures { result ≡ has set self }
    {
        set & self.bit() != 0
    }

    pub fn name(self) -> &'static [u8]
        ensures { result.now ≡ name_of self }
    {
        match self {
            Caution::OddForm => b"odd-form",
            Caution::StillRead => b"still-read",
            Caution::Overwritten => b"overwritten",
            Caution::CallMoved => b"call-moved",
            Caution::ReadMoved => b"read-moved",
            Caution::OtherWidth => b"other-width",
            Caution::OtherText => b"other-text",
            Caution::OddNumber => b"odd-number",
            Caution::Slot => b"slot",
            Caution::HandedOver => b"handed-over",
        }
    }

    pub fn sentence(self) -> &'static [u8]
        ensures { result.now ≡ sentence_of self }
    {
        match self {
            Caution::OddForm => {
                b"A line here, or one that the value may reach, is not looked into (inline assembly, an instruction by name, \
                  two statements, `&&`, a loop other than do .. while, a line entered from elsewhere): compare with the raw lines yourself."
            }
            Caution::StillRead => {
                b"The register was read elsewhere too, on this line or another: there it now holds an older value."
            }
            Caution::Overwritten => {
                b"A call stands between the value's assignment and its use here, which may have overwritten the register."
            }
            Caution::CallMoved => {
                b"A call is now made in another order, after other reads, or only under a condition."
            }
            Caution::ReadMoved => {
                b"A value is now read later, in another order, or only under a condition: mind what calls change, and device registers."
            }
            Caution::OtherWidth => {
                b"The value went through a part of a register, or is now computed or compared at another width or sign."
            }
            Caution::OtherText => {
                b"Read as C, the line's text groups otherwise than the joined expression, or writes what was only read, or counts elements \
                  for bytes."
            }
            Caution::OddNumber => {
                b"A number is large, or not spelt plainly: C may read it, or add it up, otherwise."
            }
            Caution::Slot => {
                b"A stack slot was taken for a register; it is memory, and pointers and calls may reach it."
            }
            Caution::HandedOver => {
                b"The value may be handed over unseen: to a call that does not spell its arguments, or back to the caller (the result, and \
                  the registers that calls preserve)."
            }
        }
    }
}
