// The netlist reader: text in the bench notation becomes a circuit.
#![tactic(auto)]

mod driving;
mod reading;
mod statements;
mod tokens;

pub use reading::{MAX_TEXT, read};
