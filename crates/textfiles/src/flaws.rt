// What is wrong with a text, and where.
ghost use Rattle.std.specs.Prelude.{◌≡◌, Some};
ghost use Rattle.textfiles.specs.Flaws.{sentence_of, flaw_text, error_text};
ghost use Rattle.textfiles.specs.declared.flaws.ReadError.TheVariants.{Memory, Flawed};

use circuit::Place;
use std::alloc::AllocFailed;
use std::error::Error;
use std::fmt;

#[derive(Clone, Copy, Debug, PartialEq, Eq)]
pub enum What {
    // A byte of a vector is neither `0` nor `1`.
    NotABit,
    ShortVector,
    LongVector,
    // No name stands where one must.
    NoName,
    UnknownName,
    // After the first name stands neither `/`, `.` nor `->`.
    NoSign,
    // After the pin stands no `/`.
    NoSlash,
    // The gate has no such pin.
    NoPin,
    // The first line feeds no pin of the second line's gate.
    NotFed,
    // It feeds more than one.
    FedTwice,
    // The value is neither `0` nor `1`.
    NoValue,
    // Something stands after the value.
    Trailing,
}

impl What {
    pub fn sentence(self) -> &'static str
        ensures { result.now ≡ sentence_of self }
    {
        match self {
            What::NotABit => "a vector has only the bytes 0 and 1",
            What::ShortVector => "the vector has fewer bits than the circuit has inputs",
            What::LongVector => "the vector has more bits than the circuit has inputs",
            What::NoName => "a name is missing here",
            What::UnknownName => "the circuit has no line of this name",
            What::NoSign => "after the name must stand /, . or ->",
            What::NoSlash => "after the pin must stand /",
            What::NoPin => "the gate has no such pin",
            What::NotFed => "this line feeds no pin of the gate",
            What::FedTwice => "this line feeds more than one pin of the gate",
            What::NoValue => "the value must be 0 or 1",
            What::Trailing => "nothing may stand after the value",
        }
    }
}

impl fmt::Display for What {
    ghost output = { λ what. Some (sentence_of what) };

    fn fmt<W: fmt::Write>(&self, f: &mut fmt::Formatter<W>) -> fmt::Result {
        f.write_str(self.sentence())
    }
}

#[derive(Clone, Copy, Debug, PartialEq, Eq)]
pub struct Flaw {
    pub place: Place,
    pub what: What,
}

// Line, column and a sentence.
impl fmt::Display for Flaw {
    ghost output = { λ flaw. Some (flaw_text flaw) };

    fn fmt<W: fmt::Write>(&self, f: &mut fmt::Formatter<W>) -> fmt::Result {
        let Flaw { place, what } = *self;
        write!(f, "{place}: {what}")
    }
}

impl Error for Flaw {}

// Why a file is not read.
#[derive(Clone, Copy, Debug, PartialEq, Eq)]
pub enum ReadError {
    // There is not enough memory.
    Memory,
    Flawed(Flaw),
}

impl fmt::Display for ReadError {
    ghost output = { λ error. Some (error_text error) };

    fn fmt<W: fmt::Write>(&self, f: &mut fmt::Formatter<W>) -> fmt::Result {
        match self {
            ReadError::Memory => f.write_str("there is not enough memory"),
            ReadError::Flawed(flaw) => write!(f, "{flaw}"),
        }
    }
}

impl Error for ReadError {}

impl From<Flaw> for ReadError {
    ghost from_gives = { λ f r. r ≡ Flawed f };

    fn from(flaw: Flaw) -> ReadError {
        ReadError::Flawed(flaw)
    }
}

impl<T: Drop> From<AllocFailed<T>> for ReadError {
    ghost from_gives = { λ _ r. r ≡ Memory };

    fn from(_refused: AllocFailed<T>) -> ReadError {
        ReadError::Memory
    }
}
