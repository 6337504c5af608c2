// The steps of a program: a file is read, a circuit is read from it, and what was found is printed.
ghost use Rattle.std.specs.Prelude.{◌≡◌, Ok, IfOk, IsErr, OnOk, OnErr, MatchResult};
ghost use Rattle.circuit.specs.Plans.{plan, empty};
ghost use Rattle.console.specs.Loaded.{Loaded};
ghost use Rattle.netlist.specs.Grammar.{Accepted};
ghost use Rattle.netlist.specs.Reading.{meaning};

use crate::messages::{kind_line, refusal_line, sizes};
use anyhow::Error;
use circuit::{Circuit, Kind};
use netlist::read;
use std::fmt::Display;
use std::fs;
use std::rt::{Clock, Files};
use std::time::Instant;

// A card of three gates.
pub const CARD: &str = "INPUT(a)
INPUT(b)
INPUT(c)
OUTPUT(y)
OUTPUT(z)
m = NAND(a, b)
y = OR(m, c)
z = AND(m, c)
";

// How often a benchmark reads.
const READINGS: u32 = 200;

// Says a line on standard error, and fails for a reason.
pub fn refuse<T, L: Display + Drop, R: Display + Drop>(
    rt: &impl Eprint,
    line: L,
    reason: R,
) -> anyhow::Result<T>
    ensures { IsErr result }
{
    rt.eprintln(line)?;
    Err(Error::msg(reason))
}

// The bytes of a file; says on standard error why there are none.
pub fn load(rt: &(impl Files + Eprint + AllocGlobal), file: &str) -> anyhow::Result<Vec<u8>> {
    match fs::read(rt, file) {
        Ok(text) => Ok(text),
        Err(error) => refuse(rt, format_args!("safd: {file}: {error}"), error),
    }
}

// Reads a netlist; where it is refused, says where and why on standard error.
pub fn read_or_say(
    rt: &(impl Eprint + AllocGlobal),
    file: &str,
    text: &[u8],
    circuit: &mut Circuit,
) -> anyhow::Result<()>
    ensures value { MatchResult result (λ _. meaning text.now ≡ Ok (plan circuit.new)) (λ _. IsErr (meaning text.now)) }
    ensures emptied { OnErr result (plan circuit.new ≡ empty) }
    ensures law { OnOk result (Accepted text.now (plan circuit.new)) }
{
    match read(text, circuit) {
        Ok(()) => Ok(()),
        Err(refusal) => refuse(rt, refusal_line(rt.alloc(), file, refusal)?, "refused"),
    }
}

// The circuit of a netlist; where it is refused, says where and why on standard error.
fn circuit_or_say(
    rt: &(impl Eprint + AllocGlobal),
    file: &str,
    text: &[u8],
) -> anyhow::Result<Circuit>
    ensures value { IfOk result (λ circuit. meaning text.now ≡ Ok (plan circuit)) }
    ensures law { IfOk result (λ circuit. Accepted text.now (plan circuit)) }
{
    let mut circuit = Circuit::new(rt.alloc())?;
    read_or_say(rt, file, text, &mut circuit)?;
    Ok(circuit)
}

// The circuit of a netlist file.
pub fn load_circuit(rt: &(impl Files + Eprint + AllocGlobal), file: &str) -> anyhow::Result<Circuit>
    ensures { IfOk result (λ circuit. Loaded (plan circuit)) }
{
    let text = load(rt, file)?;
    circuit_or_say(rt, file, text.as_slice())
}

fn print_counts(rt: &(impl Print + AllocGlobal), circuit: &Circuit) -> anyhow::Result<()> {
    let heap = rt.alloc();
    rt.print(sizes(heap, circuit)?)?;
    for kind in Kind::ALL {
        rt.print(kind_line(heap, circuit, kind)?)?;
    }
    Ok(())
}

// Reads a netlist, prints what it has, and gives its circuit.
pub fn report(
    rt: &(impl Print + Eprint + AllocGlobal),
    file: &str,
    text: &[u8],
) -> anyhow::Result<Circuit>
    ensures value { IfOk result (λ circuit. meaning text.now ≡ Ok (plan circuit)) }
    ensures law { IfOk result (λ circuit. Accepted text.now (plan circuit)) }
{
    let circuit = circuit_or_say(rt, file, text)?;
    print_counts(rt, &circuit)?;
    Ok(circuit)
}

// Reads a netlist file, prints what it has, and gives its circuit.
pub fn check(
    rt: &(impl Files + Print + Eprint + AllocGlobal),
    file: &str,
) -> anyhow::Result<Circuit>
    ensures { IfOk result (λ circuit. Loaded (plan circuit)) }
{
    let circuit = load_circuit(rt, file)?;
    print_counts(rt, &circuit)?;
    Ok(circuit)
}

// Prints a card's netlist and what was read of it, and gives its circuit.
pub fn tour(rt: &(impl Print + Eprint + AllocGlobal), netlist: &str) -> anyhow::Result<Circuit>
    ensures { IfOk result (λ circuit. meaning netlist.now ≡ Ok (plan circuit)) }
{
    println!(rt; "# the card's netlist:")?;
    rt.print(netlist)?;
    let circuit = circuit_or_say(rt, "tour", netlist.as_bytes())?;
    println!(rt; "# what was read:")?;
    print_counts(rt, &circuit)?;
    Ok(circuit)
}

// Reads a netlist file again and again, prints the time of one reading, and gives the circuit of the last.
pub fn bench(
    rt: &(impl Files + Clock + Print + Eprint + AllocGlobal),
    file: &str,
) -> anyhow::Result<Circuit>
    ensures { IfOk result (λ circuit. Loaded (plan circuit)) }
{
    let bytes = load(rt, file)?;
    let text = bytes.as_slice();
    let mut circuit = circuit_or_say(rt, file, text)?;
    let start = Instant::now(rt)?;
    for _ in 0..READINGS {
        let _ = read(text, &mut circuit);
    }
    let spent = start.elapsed(rt)?.as_micros() / u128::from(READINGS);
    let size = text.len();
    println!(rt; "{size} bytes, {READINGS} readings: {spent} microseconds a reading")?;
    Ok(circuit)
}

// Says that the words give no command, and how a program is used.
pub fn unknown_command(rt: &impl Eprint, usage: &str) -> anyhow::Result<()>
    ensures { IsErr result }
{
    let wrong = "safd: there is no such command, or it has too few or too many words.";
    refuse(rt, format_args!("{wrong}\n{usage}"), "usage")
}
