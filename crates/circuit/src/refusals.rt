// Why a netlist is refused: one enum for each layer of its reading, so that a refusal rises unchanged.
ghost use Rattle.std.specs.Prelude.{◌≡◌, Some};
ghost use Rattle.circuit.specs.Refusals.{number_of, word_of, place_of, layer_of, place_text, layer_word, sentence_of};

use std::error::Error;
use std::fmt;

// A place in a text, line and column from 1; 0, 0 for the text as a whole, as it is printed.
#[derive(Clone, Copy, Debug, PartialEq, Eq)]
pub struct Place {
    pub line: usize,
    pub column: usize,
}

// The layer that found it.
#[derive(Clone, Copy, Debug, PartialEq, Eq)]
pub enum Layer {
    Statement,
    Netlist,
}

#[derive(Clone, Copy, Debug, PartialEq, Eq)]
pub enum Refusal {
    // A token does not fit, or the line ends early.
    Misform(Place),
    // The kind word is none of the eight.
    NoKind(Place),
    // The number of pins does not fit the kind.
    WrongPins(Place),
    // A pin names no earlier line.
    UnknownPin(Place),
    // An output names no line.
    UnknownOutput(Place),
    // The line is driven already.
    Redriven(Place),
    // The text has more than 65,536 bytes.
    LongText,
    // The name has more than 16 bytes.
    LongName(Place),
    // More than 1,024 lines.
    ManyLines(Place),
    // More than 64 inputs.
    ManyInputs(Place),
    // More than 63 outputs.
    ManyOutputs(Place),
    // The circuit has no input.
    NoInput,
    // The circuit has no output.
    NoOutput,
}

impl Refusal {
    // Its number in the register: a number, since that is what is printed and looked up.
    pub fn number(self) -> u8
        ensures { result ≡ number_of self }
    {
        match self {
            Refusal::Misform(_) => 1,
            Refusal::NoKind(_) => 2,
            Refusal::WrongPins(_) => 3,
            Refusal::UnknownPin(_) | Refusal::UnknownOutput(_) => 4,
            Refusal::Redriven(_) => 5,
            Refusal::LongText
            | Refusal::LongName(_)
            | Refusal::ManyLines(_)
            | Refusal::ManyInputs(_)
            | Refusal::ManyOutputs(_) => 6,
            Refusal::NoInput | Refusal::NoOutput => 7,
        }
    }

    // The register's word for its number.
    pub fn word(self) -> &'static str
        ensures { result.now ≡ word_of (number_of self) }
    {
        match self {
            Refusal::Misform(_) => "misform",
            Refusal::NoKind(_) => "kind",
            Refusal::WrongPins(_) => "pins",
            Refusal::UnknownPin(_) | Refusal::UnknownOutput(_) => "unknown",
            Refusal::Redriven(_) => "redriven",
            Refusal::LongText
            | Refusal::LongName(_)
            | Refusal::ManyLines(_)
            | Refusal::ManyInputs(_)
            | Refusal::ManyOutputs(_) => "over",
            Refusal::NoInput | Refusal::NoOutput => "bare",
        }
    }

    pub fn place(self) -> Place
        ensures { result ≡ place_of self }
    {
        match self {
            Refusal::Misform(place)
            | Refusal::NoKind(place)
            | Refusal::WrongPins(place)
            | Refusal::UnknownPin(place)
            | Refusal::UnknownOutput(place)
            | Refusal::Redriven(place)
            | Refusal::LongName(place)
            | Refusal::ManyLines(place)
            | Refusal::ManyInputs(place)
            | Refusal::ManyOutputs(place) => place,
            Refusal::LongText | Refusal::NoInput | Refusal::NoOutput => Place {
                line: 0,
                column: 0,
            },
        }
    }

    pub fn layer(self) -> Layer
        ensures { result ≡ layer_of self }
    {
        match self {
            Refusal::LongText | Refusal::UnknownOutput(_) | Refusal::NoInput | Refusal::NoOutput =>
                Layer::Netlist,
            _ => Layer::Statement,
        }
    }
}

impl fmt::Display for Place {
    ghost output = { λ place. Some (place_text place) };

    fn fmt<W: fmt::Write>(&self, f: &mut fmt::Formatter<W>) -> fmt::Result {
        let Place { line, column } = *self;
        write!(f, "{line}:{column}")
    }
}

impl fmt::Display for Layer {
    ghost output = { λ layer. Some (layer_word layer) };

    fn fmt<W: fmt::Write>(&self, f: &mut fmt::Formatter<W>) -> fmt::Result {
        f.write_str(match self {
            Layer::Statement => "statement",
            Layer::Netlist => "netlist",
        })
    }
}

// A sentence, without number, word and place.
impl fmt::Display for Refusal {
    ghost output = { λ refusal. Some (sentence_of refusal) };

    fn fmt<W: fmt::Write>(&self, f: &mut fmt::Formatter<W>) -> fmt::Result {
        f.write_str(match self {
            Refusal::Misform(_) => "a token does not fit, or the line ends early",
            Refusal::NoKind(_) => "the kind is none of AND, NAND, OR, NOR, XOR, XNOR, NOT, BUFF",
            Refusal::WrongPins(_) => "NOT and BUFF have one pin, the other kinds two to four",
            Refusal::UnknownPin(_) => "the pin names no earlier line",
            Refusal::UnknownOutput(_) => "the output names no line",
            Refusal::Redriven(_) => "the line exists already",
            Refusal::LongText => "the text has more than 65536 bytes",
            Refusal::LongName(_) => "the name has more than 16 bytes",
            Refusal::ManyLines(_) => "the circuit has more than 1024 lines",
            Refusal::ManyInputs(_) => "the circuit has more than 64 inputs",
            Refusal::ManyOutputs(_) => "the circuit has more than 63 outputs",
            Refusal::NoInput => "the circuit has no input",
            Refusal::NoOutput => "the circuit has no output",
        })
    }
}

impl Error for Refusal {}
