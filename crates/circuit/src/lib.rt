// What a card is: kinds of gate, lines, circuits, fault sites, and why a netlist is refused.
#![tactic(auto)]

mod drafts;
mod faults;
mod few;
mod kinds;
mod lines;
mod names;
mod pins;
mod refusals;
mod whole;

pub use drafts::{Draft, MAX_INPUTS, MAX_LINES, MAX_OUTPUTS};
pub use faults::{Fault, Site};
pub use few::Few;
pub use kinds::{Kind, UnknownKind};
pub use lines::{Gate, Line};
pub use names::{MAX_NAME, Name};
pub use pins::{MAX_PINS, ManyPins, Pins};
pub use refusals::{Layer, Place, Refusal};
pub use whole::Circuit;
