// What the program is asked to do.
ghost use Rattle.std.specs.Prelude.{◌≡◌, map, string_bytes};
ghost use Rattle.safd_next.specs.Commands.{asked, command_of};

#[derive(Clone, Copy)]
pub(crate) enum Command<'a> {
    Help,
    // Go the whole way on a built-in card.
    Tour,
    // Read a netlist and say what it has.
    Check(&'a str),
    // Print every fault of a netlist.
    Faults(&'a str),
    // Read a netlist many times and say how long one reading takes.
    Bench(&'a str),
    // Print the fault-free circuit's log of some vectors.
    Simulate(&'a str, &'a str),
    // Print the log of the circuit with one fault: netlist, vectors, fault.
    Inject(&'a str, &'a str, &'a str),
    // Simulate all faults of a list at all vectors and say how long it takes: netlist, faults, vectors.
    Time(&'a str, &'a str, &'a str),
    Unknown,
}

pub(crate) const USAGE: &str = "usage: safd COMMAND

commands:
  check NETLIST                     read a netlist and print how many lines, inputs, outputs and gates it has, and its depth
  faults NETLIST                    print every stem and pin fault, at 0 and at 1, as a fault list
  simulate NETLIST VECTORS          print the log of the fault-free circuit: each vector and the outputs
  simulate NETLIST VECTORS FAULT    print the log of the circuit with one fault, as NAME/V, NAME.P/V or 'FROM->NAME /V'
  bench NETLIST                     read a netlist many times and print the time of one reading
  bench NETLIST FAULTS VECTORS      simulate every listed fault at every vector by each method, and print the time and a checksum
  tour                              go the whole way on a built-in card
  help                              print this text";

// The command that the words after the program's name give.
pub(crate) fn parse<'a>(words: &'a [String]) -> Command<'a>
    ensures { asked result ≡ command_of (map string_bytes words.now) }
{
    match words {
        [word] => match word.as_str() {
            "help" => Command::Help,
            "tour" => Command::Tour,
            _ => Command::Unknown,
        },
        [word, netlist] => match word.as_str() {
            "check" => Command::Check(netlist.as_str()),
            "faults" => Command::Faults(netlist.as_str()),
            "bench" => Command::Bench(netlist.as_str()),
            _ => Command::Unknown,
        },
        [word, netlist, vectors] => match word.as_str() {
            "simulate" => Command::Simulate(netlist.as_str(), vectors.as_str()),
            _ => Command::Unknown,
        },
        [word, netlist, second, third] => match word.as_str() {
            "simulate" => Command::Inject(netlist.as_str(), second.as_str(), third.as_str()),
            "bench" => Command::Time(netlist.as_str(), second.as_str(), third.as_str()),
            _ => Command::Unknown,
        },
        _ => Command::Unknown,
    }
}
