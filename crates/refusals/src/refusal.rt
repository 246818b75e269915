// Why something is refused, and which line or record of many is at fault.
ghost use Rattle.std.specs.Prelude.{◌≡◌, Some};
ghost use Rattle.refusals.specs.Refusal.{number, fault};
ghost use Rattle.refusals.specs.Printed.{refusal_printed, fault_printed};

use std::error::Error;
use std::fmt;

// The lines of document 01's table of refusals in its order, and document 02's 13.
#[derive(Clone, Copy, Debug, PartialEq, Eq)]
pub enum Refusal {
    WrongZone,
    NoRow,
    WrongLength,
    WrongValue,
    WrongAnswer,
    TooManyLines,
    IllegalLine,
    RepeatedLine,
    NoRoom,
    WrongFile,
    TooLong,
    WrongLetter,
    NoStep,
}

// A refusal, and the place of the line or record at fault, from 0; 0 too where a refusal has no place, as document 01
// has it: "zero for every other field".
#[derive(Clone, Copy, Debug, PartialEq, Eq)]
pub struct Fault {
    pub refusal: Refusal,
    pub place: usize,
}

impl Refusal {
    // Its number in the documents: by a match, line for line as the definition number.
    pub fn number(self) -> u8
        ensures { result ≡ number self }
    {
        match self {
            Refusal::WrongZone => 1,
            Refusal::NoRow => 2,
            Refusal::WrongLength => 3,
            Refusal::WrongValue => 4,
            Refusal::WrongAnswer => 5,
            Refusal::TooManyLines => 6,
            Refusal::IllegalLine => 7,
            Refusal::RepeatedLine => 8,
            Refusal::NoRoom => 9,
            Refusal::WrongFile => 10,
            Refusal::TooLong => 11,
            Refusal::WrongLetter => 12,
            Refusal::NoStep => 13,
        }
    }
}

impl fmt::Display for Refusal {
    ghost output = { λ refusal. Some (refusal_printed refusal) };

    fn fmt<W: fmt::Write>(&self, f: &mut fmt::Formatter<W>) -> fmt::Result {
        write!(f, "refused {}", self.number())
    }
}

impl fmt::Display for Fault {
    ghost output = { λ it. Some (fault_printed it) };

    fn fmt<W: fmt::Write>(&self, f: &mut fmt::Formatter<W>) -> fmt::Result {
        write!(f, "{} at {}", self.refusal, self.place)
    }
}

impl Error for Refusal {}

impl Error for Fault {}

// A refusal that has no place.
impl From<Refusal> for Fault {
    ghost from_gives = { λ refusal it. it ≡ fault refusal 0 };

    fn from(refusal: Refusal) -> Fault {
        Fault { refusal, place: 0 }
    }
}
