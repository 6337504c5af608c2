// Why a vector is not simulated.
ghost use Rattle.std.specs.Prelude.{◌≡◌, Some};
ghost use Rattle.simulation.specs.Refusals.{number_of, word_of, place_of, sentence_of};

use std::error::Error;
use std::fmt;

#[derive(Clone, Copy, Debug, PartialEq, Eq)]
pub enum Unfit {
    // The vector has a bit past the inputs: the lowest such bit.
    Stray(usize),
    // A table is too short: the length needed.
    Short(usize),
}

impl Unfit {
    // Its number in the register: a number, since that is what is printed and looked up.
    pub fn number(self) -> u8
        ensures { result ≡ number_of self }
    {
        match self {
            Unfit::Stray(_) => 12,
            Unfit::Short(_) => 13,
        }
    }

    // The register's word for it.
    pub fn word(self) -> &'static str
        ensures { result.now ≡ word_of self }
    {
        match self {
            Unfit::Stray(_) => "stray",
            Unfit::Short(_) => "short",
        }
    }

    // The bit, or the length.
    pub fn place(self) -> usize
        ensures { result ≡ place_of self }
    {
        match self {
            Unfit::Stray(bit) => bit,
            Unfit::Short(needed) => needed,
        }
    }
}

// The refusal in a sentence.
impl fmt::Display for Unfit {
    ghost output = { λ unfit. Some (sentence_of unfit) };

    fn fmt<W: fmt::Write>(&self, f: &mut fmt::Formatter<W>) -> fmt::Result {
        match self {
            Unfit::Stray(_) => write!(f, "the vector has a bit past the inputs"),
            Unfit::Short(_) => write!(f, "a table is too short"),
        }
    }
}

impl Error for Unfit {}
