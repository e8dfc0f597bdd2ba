// Why a call is refused, and the answer of the calls beside the cleaning, for Rattle and in numbers for C and Rust.
#![tactic(auto)]

ghost use Rattle.std.specs.Prelude.{◌≡◌, Some, codes};
ghost use Rattle.answers.specs.Refusals.{number_of, Numbers, refusal_text};
ghost use Rattle.answers.specs.Answers.{answer_of, by_number, in_numbers, numbers_of};

use std::error::Error;
use std::fmt;

// What refuses a call. The numbers are `number_of`'s, by documents 01 and 02.
#[derive(Clone, Copy, Debug, PartialEq, Eq, Hash)]
pub enum Reason {
    UnknownConvention,
    UnknownEdition,
    TooLittleRoom,
    NoCommand,
    CutOff,
    OutOfPlace, // a token before any line; marks not directly after a line's command, or with their lowest above their highest
    OutOfBounds, // an indent above 63, an empty text, a number of more than 24 bytes
    TooMany, // a tape of more than 256 lines or 1,024 tokens
    TooMuchText,
    Unprintable,
    BytesAfterEnd,
    NewKeyword,
    UnreadNumber,
    OutsideProfile,
    NoStartValue,
    NoRegister,
    TooLong, // more than 256 lines are asked for
    OutOfReach,
    NoBase,
    NotHeld,
    StoreFull,
    BrokenCell,
}

// A reason and the place that its question gives.
#[derive(Clone, Copy, Debug, PartialEq, Eq, Hash)]
pub struct Refusal {
    pub reason: Reason,
    pub place: u64,
}

// What a call answers: the length of the output, a start value, or 0.
pub type Answer = Result<u64, Refusal>;

impl Reason {
    // The number of the question.
    pub fn number(self) -> u64
        ensures { result ≡ number_of self }
    {
        match self {
            Reason::UnknownConvention => 1,
            Reason::TooLittleRoom => 2,
            Reason::NoCommand => 3,
            Reason::CutOff => 4,
            Reason::OutOfPlace => 5,
            Reason::OutOfBounds => 6,
            Reason::Unprintable => 7,
            Reason::BytesAfterEnd => 8,
            Reason::UnknownEdition => 9,
            Reason::TooMany => 10,
            Reason::TooMuchText => 11,
            Reason::NewKeyword => 12,
            Reason::UnreadNumber => 13,
            Reason::OutsideProfile => 14,
            Reason::NoStartValue => 15,
            Reason::NoRegister => 16,
            Reason::TooLong => 17,
            Reason::OutOfReach => 18,
            Reason::NoBase => 19,
            Reason::NotHeld => 20,
            Reason::StoreFull => 21,
            Reason::BrokenCell => 22,
        }
    }

    // The refusal for this reason at a place.
    pub fn at(self, place: usize) -> Refusal
        ensures { result ≡ record { reason = self; place = place } }
    {
        Refusal {
            reason: self,
            // Kept: a cast: 64 bits hold every `usize`, and `u64::try_from` is no plainer, since it asks what to do where they do not.
            place: place as u64,
        }
    }
}

// Of a number that no reason has.
#[derive(Clone, Copy, Debug, PartialEq, Eq, Hash)]
pub struct UnknownReason;

impl TryFrom<u64> for Reason {
    type Error = UnknownReason;

    ghost try_from_gives = { Numbers };

    // The reason of a number.
    fn try_from(number: u64) -> Result<Self, UnknownReason> {
        match number {
            1 => Ok(Reason::UnknownConvention),
            2 => Ok(Reason::TooLittleRoom),
            3 => Ok(Reason::NoCommand),
            4 => Ok(Reason::CutOff),
            5 => Ok(Reason::OutOfPlace),
            6 => Ok(Reason::OutOfBounds),
            7 => Ok(Reason::Unprintable),
            8 => Ok(Reason::BytesAfterEnd),
            9 => Ok(Reason::UnknownEdition),
            10 => Ok(Reason::TooMany),
            11 => Ok(Reason::TooMuchText),
            12 => Ok(Reason::NewKeyword),
            13 => Ok(Reason::UnreadNumber),
            14 => Ok(Reason::OutsideProfile),
            15 => Ok(Reason::NoStartValue),
            16 => Ok(Reason::NoRegister),
            17 => Ok(Reason::TooLong),
            18 => Ok(Reason::OutOfReach),
            19 => Ok(Reason::NoBase),
            20 => Ok(Reason::NotHeld),
            21 => Ok(Reason::StoreFull),
            22 => Ok(Reason::BrokenCell),
            _ => Err(UnknownReason),
        }
    }
}

impl fmt::Display for UnknownReason {
    ghost output = { λ _. Some (codes "no reason has this number") };

    fn fmt<W: fmt::Write>(&self, f: &mut fmt::Formatter<W>) -> fmt::Result {
        f.write_str("no reason has this number")
    }
}

impl Error for UnknownReason {}

// For programs that call the library: the command and the filter put their lines byte by byte.
impl fmt::Display for Refusal {
    ghost output = { λ r. Some (refusal_text r) };

    fn fmt<W: fmt::Write>(&self, f: &mut fmt::Formatter<W>) -> fmt::Result {
        let number = self.reason.number();
        let place = self.place;
        write!(f, "refused {number} at {place}")
    }
}

impl Error for Refusal {}

// An answer in numbers. `refusal` is 0 where the call was not refused, else the number of the question that refused, at `place`; then
// `value` is 0.
// Kept: numbers in place of a `Result`: it is the C interface's own struct. Its fields, their order, and 0 for no refusal are those of
// `puchkewa_answer` in include/puchkewa.h.
#[repr(C)]
#[derive(Clone, Copy, Debug, PartialEq, Eq)]
pub struct Told {
    pub refusal: u64,
    pub place: u64,
    pub value: u64,
}

// An answer in numbers where the refusal is a number, whichever, and a place.
pub fn tell(answer: Result<u64, (u64, usize)>) -> Told
    ensures { numbers_of result ≡ in_numbers (by_number answer) }
{
    match answer {
        Err((refusal, at)) => Told {
            refusal,
            // Kept: a cast, as in `Reason::at`.
            place: at as u64,
            value: 0,
        },
        Ok(value) => Told {
            refusal: 0,
            place: 0,
            value,
        },
    }
}

impl From<Answer> for Told {
    ghost from_gives = { λ answer told. numbers_of told ≡ in_numbers (answer_of answer) };

    fn from(answer: Answer) -> Told {
        match answer {
            Err(refusal) => Told {
                refusal: refusal.reason.number(),
                place: refusal.place,
                value: 0,
            },
            Ok(value) => Told {
                refusal: 0,
                place: 0,
                value,
            },
        }
    }
}
