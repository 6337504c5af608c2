// The eight kinds of gate.
ghost use Rattle.std.specs.Prelude.{◌≡◌, Some};
ghost use Rattle.circuit.specs.Gates.{kind_word, fits, kind_read, unknown_kind};

use std::error::Error;
use std::fmt;

#[derive(Clone, Copy, Debug, PartialEq, Eq)]
pub enum Kind {
    And,
    Nand,
    Or,
    Nor,
    Xor,
    Xnor,
    Not,
    Buff,
}

impl Kind {
    // The eight, in their order.
    pub const ALL: [Kind; 8] = [
        Kind::And,
        Kind::Nand,
        Kind::Or,
        Kind::Nor,
        Kind::Xor,
        Kind::Xnor,
        Kind::Not,
        Kind::Buff,
    ];

    // The word that names it in a netlist.
    pub fn word(self) -> &'static str
        ensures { result.now ≡ kind_word self }
    {
        match self {
            Kind::And => "AND",
            Kind::Nand => "NAND",
            Kind::Or => "OR",
            Kind::Nor => "NOR",
            Kind::Xor => "XOR",
            Kind::Xnor => "XNOR",
            Kind::Not => "NOT",
            Kind::Buff => "BUFF",
        }
    }

    // Whether a gate of this kind may have so many pins.
    pub fn takes(self, pins: usize) -> bool
        ensures { result ≡ fits self pins }
    {
        match self {
            Kind::Not | Kind::Buff => pins == 1,
            _ => (2..=4).contains(&pins),
        }
    }
}

impl fmt::Display for Kind {
    ghost output = { λ kind. Some (kind_word kind) };

    fn fmt<W: fmt::Write>(&self, f: &mut fmt::Formatter<W>) -> fmt::Result {
        f.write_str(self.word())
    }
}

// A word that names no kind.
#[derive(Clone, Copy, Debug, PartialEq, Eq)]
pub struct UnknownKind;

// The kind that a word names, by its bytes, in capitals only.
impl TryFrom<&[u8]> for Kind {
    type Error = UnknownKind;

    ghost try_from_gives = { λ word kind. kind ≡ kind_read word.now };

    fn try_from(word: &[u8]) -> Result<Kind, UnknownKind> {
        match word {
            b"AND" => Ok(Kind::And),
            b"NAND" => Ok(Kind::Nand),
            b"OR" => Ok(Kind::Or),
            b"NOR" => Ok(Kind::Nor),
            b"XOR" => Ok(Kind::Xor),
            b"XNOR" => Ok(Kind::Xnor),
            b"NOT" => Ok(Kind::Not),
            b"BUFF" => Ok(Kind::Buff),
            _ => Err(UnknownKind),
        }
    }
}

impl fmt::Display for UnknownKind {
    ghost output = { λ _. Some unknown_kind };

    fn fmt<W: fmt::Write>(&self, f: &mut fmt::Formatter<W>) -> fmt::Result {
        f.write_str("the word names no kind of gate")
    }
}

impl Error for UnknownKind {}
