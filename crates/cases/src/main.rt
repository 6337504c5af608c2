// Reads each netlist that it is given and prints what was read or why it was refused.
// The output is held to what a second reader, written apart, says of the same files.
#![tactic(auto)]

use circuit::{Circuit, Line, Refusal};
use netlist::read;
use std::rt::Files;
use std::str::from_utf8;
use std::{env, fs};

// Circuits of at most so many lines are printed whole.
const SMALL: usize = 16;

fn print_line(rt: &impl Print, line: Line) -> anyhow::Result<()> {
    match line {
        Line::Input(number) => println!(rt; "INPUT {number}")?,
        Line::Gate(gate) => {
            rt.print(gate.kind)?;
            for pin in gate.pins.as_slice() {
                print!(rt; " {pin}")?;
            }
            println!(rt)?;
        }
    }
    Ok(())
}

// Every line with its name, kind and pins, then the lines that the outputs show.
fn print_circuit(rt: &impl Print, circuit: &Circuit) -> anyhow::Result<()> {
    let draft = &circuit.draft;
    for (number, (line, name)) in draft.lines.iter().zip(&draft.names).enumerate() {
        let text = from_utf8(name.bytes())?;
        print!(rt; "  {number} {text} ")?;
        print_line(rt, *line)?;
    }
    rt.print("  shows")?;
    for line in &draft.outputs {
        print!(rt; " {line}")?;
    }
    println!(rt)?;
    Ok(())
}

fn print_refusal(rt: &impl Print, file: &str, refusal: Refusal) -> anyhow::Result<()> {
    let place = refusal.place();
    let number = refusal.number();
    let word = refusal.word();
    let layer = refusal.layer();
    println!(rt; "{file}: refusal {number}, {word}, at {place}, {layer}")?;
    Ok(())
}

fn try_file(
    rt: &(impl Files + Print + AllocGlobal),
    circuit: &mut Circuit,
    file: &str,
) -> anyhow::Result<()> {
    let text = fs::read(rt, file)?;
    if let Err(refusal) = read(text.as_slice(), circuit) {
        return print_refusal(rt, file, refusal);
    }
    let lines = circuit.lines();
    let inputs = circuit.inputs();
    let outputs = circuit.outputs();
    let depth = circuit.depth();
    println!(rt;
        "{file}: accepted, {lines} lines, {inputs} inputs, {outputs} outputs, depth {depth}"
    )?;
    if lines <= SMALL {
        print_circuit(rt, circuit)?;
    }
    Ok(())
}

// One circuit serves for all files: it is refilled, and emptied by what is refused.
fn main(rt: HostRuntime) -> anyhow::Result<()> {
    let mut circuit = Circuit::new(rt.alloc())?;
    for file in env::args(&rt)?.skip(1) {
        try_file(&rt, &mut circuit, file.as_str())?;
    }
    Ok(())
}

#[cfg(test)]
mod tests {
    use super::*;
    use circuit::{Place, Site};
    use std::test::Fail;

    const CARD: &[u8] = b"INPUT(a)\nINPUT(b)\nOUTPUT(y)\ny = NAND(a, b)\n";

    #[test]
    fn a_circuit_answers(rt: HostRuntime) -> Result<(), Fail> {
        let mut circuit = Circuit::new(rt.alloc())?;
        assert!(rt; circuit.is_empty());
        assert!(rt; read(CARD, &mut circuit).is_ok());
        assert_eq!(rt; circuit.line_of(b"y"), Some(2));
        assert_eq!(rt; circuit.line_of(b"q"), None);
        assert_eq!(rt; circuit.output(0), Some(2));
        assert_eq!(rt; circuit.output(1), None);
        assert!(rt; circuit.has_site(Site::Stem(2)) && !circuit.has_site(Site::Stem(3)));
        assert!(rt; circuit.has_site(Site::Pin(2, 1)) && !circuit.has_site(Site::Pin(2, 2)));
        assert!(rt; !circuit.has_site(Site::Pin(0, 0)));
        Ok(())
    }

    #[test]
    fn a_refused_reading_empties(rt: HostRuntime) -> Result<(), Fail> {
        let mut circuit = Circuit::new(rt.alloc())?;
        assert!(rt; read(CARD, &mut circuit).is_ok());
        let refused = Refusal::UnknownPin(Place { line: 2, column: 9 });
        assert!(rt; read(b"INPUT(a)\ny = NOT(b)\n", &mut circuit) == Err(refused));
        assert!(rt; circuit.is_empty() && circuit.outputs() == 0);
        Ok(())
    }
}
