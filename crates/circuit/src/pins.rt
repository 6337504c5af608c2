// The lines that feed a gate's pins, in order: at most four, in memory of fixed size.
ghost use Rattle.std.specs.Prelude.{◌≡◌, ◌<◌, ◌≤◌, ◌↔◌, [], ◌∷◌, ◌++◌, length, Some, codes, IsOk, OnOk, OnErr};

use crate::few::Few;
use std::error::Error;
use std::fmt;
use std::marker::Model;

// The most pins that a gate has.
pub const MAX_PINS: usize = 4;

#[derive(Clone, Copy, Debug, PartialEq, Eq)]
pub struct Pins {
    lines: Few<u16, MAX_PINS>,
}

impl Model for Pins {
    ghost use Rattle.std.specs.Prelude.{◌≡◌, ℕ, ◌-◌, List, length, replicate};
    ghost use Rattle.std.proofs.Common.{sym};

    ghost Value = { List ℕ };

    ghost view = { λ p. p.lines.items };

    ghost invariant = { λ p. p.lines.spare ≡ replicate (4 - length p.lines.items) 0 };

    ghost inverse = { λ ps. record { lines = record { items = ps; spare = replicate (4 - length ps) 0 } } };

    ghost inverse_ok = { λ p h i. record { lines = record { items = p.lines.items; spare = sym h i } } };
}

// A gate has no room for the pin.
#[derive(Clone, Copy, Debug, PartialEq, Eq)]
pub struct ManyPins;

impl Pins {
    pub fn new() -> Pins
        ensures { result ≡ [] }
    {
        Pins { lines: Few::new(0) }
    }

    // One pin more, unless there are four.
    pub fn push(&mut self, line: u16) -> Result<(), ManyPins>
        ensures room { IsOk result ↔ (length self.old < 4) }
        ensures pushed { OnOk result (self.new ≡ self.old ++ line ∷ []) }
        ensures full { OnErr result (self.new ≡ self.old) }
    {
        self.lines.try_push(line).map_err(|_| ManyPins)
    }

    pub fn as_slice(&self) -> &[u16]
        ensures value { result.now ≡ self.now }
        ensures few { length self.now ≤ 4 }
    {
        self.lines.as_slice()
    }
}

impl Default for Pins {
    ghost is_default = { λ pins. pins ≡ [] };

    fn default() -> Pins {
        Self::new()
    }
}

impl fmt::Display for ManyPins {
    ghost output = { λ _. Some (codes "a gate has at most four pins") };

    fn fmt<W: fmt::Write>(&self, f: &mut fmt::Formatter<W>) -> fmt::Result {
        f.write_str("a gate has at most four pins")
    }
}

impl Error for ManyPins {}
