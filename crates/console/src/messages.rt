// What a program says of a circuit or of a refusal.
ghost use Rattle.std.specs.Prelude.{◌≡◌, IfOk, string_bytes};
ghost use Rattle.circuit.specs.Plans.{plan};
ghost use Rattle.console.specs.Messages.{refusal_line, sizes, kind_line};

use circuit::{Circuit, Kind, Refusal};
use std::alloc::{AllocError, Global};

// Where a netlist was refused, and why.
pub fn refusal_line(heap: Global, file: &str, refusal: Refusal) -> Result<String, AllocError>
    ensures { IfOk result (λ s. string_bytes s ≡ refusal_line file.now refusal) }
{
    let place = refusal.place();
    let number = refusal.number();
    let word = refusal.word();
    format!(in heap; "{file}:{place}: refusal {number}, {word}: {refusal}")
}

// How many lines, inputs and outputs a circuit has, and how deep it is.
pub fn sizes(heap: Global, circuit: &Circuit) -> Result<String, AllocError>
    ensures { IfOk result (λ s. string_bytes s ≡ sizes (plan circuit.now)) }
{
    let lines = circuit.lines();
    let inputs = circuit.inputs();
    let outputs = circuit.outputs();
    let depth = circuit.depth();
    format!(in heap; "lines {lines}\ninputs {inputs}\noutputs {outputs}\ndepth {depth}\n")
}

// How many gates of a kind a circuit has.
pub fn kind_line(heap: Global, circuit: &Circuit, kind: Kind) -> Result<String, AllocError>
    ensures { IfOk result (λ s. string_bytes s ≡ kind_line (plan circuit.now) kind) }
{
    let count = circuit.gates(kind);
    format!(in heap; "{kind} {count}\n")
}
