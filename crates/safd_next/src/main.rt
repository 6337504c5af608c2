// safd: stuck-at fault dictionaries.
#![tactic(auto)]

mod commands;
mod messages;
mod timing;

ghost use Rattle.std.specs.Prelude.{◌≡◌, Ok, IsErr, MatchResult};

use circuit::{Circuit, Fault, MAX_LINES, Site};
use commands::{Command, USAGE, parse};
use console::{CARD, bench, check, load, load_circuit, refuse, unknown_command};
use messages::{flaw_line, unfit_line};
use method::{Deductive, Parallel};
use simulation::{Listed, machine_word};
use std::env;
use std::rt::{Clock, Files};
use textfiles::{
    ReadError, every_fault, fault_text, log_line, read_fault, read_faults, read_vectors,
};
use timing::time_method;

// What was read of a text; says on standard error why there is nothing.
fn or_say<T>(
    rt: &(impl Eprint + AllocGlobal),
    name: &str,
    read: Result<T, ReadError>,
) -> anyhow::Result<T>
    ensures { MatchResult result (λ x. read ≡ Ok x) (λ _. IsErr read) }
{
    match read {
        Ok(read) => Ok(read),
        Err(ReadError::Flawed(flaw)) => refuse(rt, flaw_line(rt.alloc(), name, flaw)?, "refused"),
        // This line needs no memory.
        Err(memory @ ReadError::Memory) => {
            refuse(rt, format_args!("safd: {name}: {memory}"), "memory")
        }
    }
}

// The vectors of a file.
fn load_vectors(
    rt: &(impl Files + Eprint + AllocGlobal),
    file: &str,
    circuit: &Circuit,
) -> anyhow::Result<Vec<u64>> {
    let text = load(rt, file)?;
    let vectors = read_vectors(rt.alloc(), text.as_slice(), circuit.inputs());
    or_say(rt, file, vectors)
}

// The faults of a file, none of them dropped.
fn load_faults(
    rt: &(impl Files + Eprint + AllocGlobal),
    file: &str,
    circuit: &Circuit,
) -> anyhow::Result<Vec<Listed>> {
    let text = load(rt, file)?;
    let faults = or_say(rt, file, read_faults(rt.alloc(), text.as_slice(), circuit))?;
    let listed = faults
        .iter()
        .map(|fault| Listed {
            fault: *fault,
            dropped: false,
        })
        .collect(rt.alloc())?;
    Ok(listed)
}

// The fault that a word names.
fn find_fault(
    rt: &(impl Eprint + AllocGlobal),
    text: &str,
    circuit: &Circuit,
) -> anyhow::Result<Fault> {
    let fault = read_fault(text.as_bytes(), circuit).map_err(ReadError::from);
    or_say(rt, "fault", fault)
}

// Prints every fault of a circuit as a fault list.
fn faults(rt: &(impl Files + Print + Eprint + AllocGlobal), file: &str) -> anyhow::Result<()> {
    let circuit = load_circuit(rt, file)?;
    let heap = rt.alloc();
    let faults = every_fault(heap, &circuit)?;
    for fault in faults.as_slice() {
        rt.println(fault_text(heap, &circuit, *fault)?)?;
    }
    Ok(())
}

// Prints the log of a machine.
fn print_log(
    rt: &(impl Print + Eprint + AllocGlobal),
    circuit: &Circuit,
    machine: Option<Fault>,
    vectors: &[u64],
) -> anyhow::Result<()> {
    let heap = rt.alloc();
    let mut work = [Parallel { word: 0 }; MAX_LINES];
    for vector in vectors {
        match machine_word(circuit, machine, *vector, &mut work) {
            Ok(word) => {
                rt.println(log_line(heap, *vector, circuit.inputs(), word, circuit.outputs())?)?;
            }
            Err(unfit) => return refuse(rt, unfit_line(heap, unfit)?, "refused"),
        }
    }
    Ok(())
}

// Prints the log of the circuit, with the fault if there is one.
fn simulate(
    rt: &(impl Files + Print + Eprint + AllocGlobal),
    netlist: &str,
    vectors: &str,
    fault: Option<&str>,
) -> anyhow::Result<()> {
    let circuit = load_circuit(rt, netlist)?;
    let vectors = load_vectors(rt, vectors, &circuit)?;
    let machine = fault
        .map(|text| find_fault(rt, text, &circuit))
        .transpose()?;
    print_log(rt, &circuit, machine, vectors.as_slice())
}

// The whole way on a built-in card, as far as the program goes.
fn tour(rt: &(impl Print + Eprint + AllocGlobal)) -> anyhow::Result<()> {
    let circuit = console::tour(rt, CARD)?;
    println!(rt; "# the vector 110 in the fault-free circuit:")?;
    print_log(rt, &circuit, None, &[3])?;
    let fault = Fault {
        site: Site::Stem(3),
        stuck: true,
    };
    let name = fault_text(rt.alloc(), &circuit, fault)?;
    println!(rt; "# the same vector with the fault {name}:")?;
    print_log(rt, &circuit, Some(fault), &[3])
}

// Simulates every listed fault at every vector by each method, and prints how long it took.
fn time(
    rt: &(impl Files + Clock + Print + Eprint + AllocGlobal),
    netlist: &str,
    faults: &str,
    vectors: &str,
) -> anyhow::Result<()> {
    let circuit = load_circuit(rt, netlist)?;
    let listed = load_faults(rt, faults, &circuit)?;
    let vectors = load_vectors(rt, vectors, &circuit)?;
    let (listed, vectors) = (listed.as_slice(), vectors.as_slice());
    time_method::<Parallel>(rt, "parallel", &circuit, listed, vectors)?;
    time_method::<Deductive>(rt, "deductive", &circuit, listed, vectors)
}

fn main(rt: HostRuntime) -> anyhow::Result<()> {
    let words: Vec<String> = env::args(&rt)?.skip(1).collect(rt.alloc())?;
    match parse(words.as_slice()) {
        Command::Help => {
            rt.println(USAGE)?;
            Ok(())
        }
        Command::Tour => tour(&rt),
        Command::Check(netlist) => check(&rt, netlist).map(drop),
        Command::Faults(netlist) => faults(&rt, netlist),
        Command::Bench(netlist) => bench(&rt, netlist).map(drop),
        Command::Simulate(netlist, vectors) => simulate(&rt, netlist, vectors, None),
        Command::Inject(netlist, vectors, fault) => simulate(&rt, netlist, vectors, Some(fault)),
        Command::Time(netlist, faults, vectors) => time(&rt, netlist, faults, vectors),
        Command::Unknown => unknown_command(&rt, USAGE),
    }
}
