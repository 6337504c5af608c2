// A circuit in the making: lines and names so far, and the outputs found.
ghost use Rattle.std.specs.Prelude.{◌≡◌, ◌≤◌, map, vec_len, vec_capacity};
ghost use Rattle.circuit.specs.Shape.{inputs_in, Counted, Fed, Numbered, Distinct, Shown};
ghost use Rattle.circuit.specs.Spelled.{bytes_of};

use crate::lines::Line;
use crate::names::Name;

mod making;

// The limits of a circuit.
pub const MAX_LINES: usize = 1024;

pub const MAX_INPUTS: usize = 64;

pub const MAX_OUTPUTS: usize = 63;

// Its fields are open to the reader that fills it: the facts below hold at each step, whoever writes.
// Lines and names are two lists, since a simulation passes over the lines alone and a search over the names alone.
#[derive(Drop)]
pub struct Draft {
    pub lines: Vec<Line>,
    pub names: Vec<Name>,
    pub outputs: Vec<u16>,
    pub inputs: usize,
    ghost room: { (1024 ≤ vec_capacity lines) × (1024 ≤ vec_capacity names) × (63 ≤ vec_capacity outputs) },
    ghost few: { vec_len lines ≤ 1024 },
    ghost named: { vec_len names ≡ vec_len lines },
    ghost tallied: { inputs ≡ inputs_in lines.items },
    ghost fewer: { inputs ≤ 64 },
    ghost slim: { vec_len outputs ≤ 63 },
    ghost shown: { Shown outputs.items (vec_len lines) },
    ghost counted: { Counted lines.items },
    ghost fed: { Fed lines.items },
    ghost numbered: { Numbered lines.items },
    ghost distinct: { Distinct (map bytes_of names.items) },
}
