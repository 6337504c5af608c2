// A circuit's lines: each is an input, or driven by a gate.
use crate::kinds::Kind;
use crate::pins::Pins;

#[derive(Clone, Copy, Debug, PartialEq, Eq)]
pub struct Gate {
    pub kind: Kind,
    // The lines that feed the pins.
    pub pins: Pins,
}

#[derive(Clone, Copy, Debug, PartialEq, Eq)]
pub enum Line {
    // The input of that number.
    Input(u8),
    Gate(Gate),
}
