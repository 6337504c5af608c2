// What the program is asked to do.
ghost use Rattle.std.specs.Prelude.{◌≡◌, map, string_bytes};
ghost use Rattle.safd.specs.Commands.{asked, command_of};

#[derive(Clone, Copy)]
pub(crate) enum Command<'a> {
    Help,
    // Read a netlist and say what it has.
    Check(&'a str),
    // Read a netlist many times and say how long one reading takes.
    Bench(&'a str),
    // Go the whole way on a built-in card.
    Tour,
    Unknown,
}

pub(crate) const USAGE: &str = "usage: safd COMMAND

commands:
  check NETLIST   read a netlist and print how many lines, inputs, outputs and gates it has, and its depth
  bench NETLIST   read a netlist many times and print the time of one reading
  tour            read a built-in card and print what was found
  help            print this text";

// The command that the words after the program's name give.
pub(crate) fn parse<'a>(words: &'a [String]) -> Command<'a>
    ensures { asked result ≡ command_of (map string_bytes words.now) }
{
    match words {
        [word] => match word.as_str() {
            "help" => Command::Help,
            "tour" => Command::Tour,
            _ => Command::Unknown,
        },
        [word, file] => match word.as_str() {
            "check" => Command::Check(file.as_str()),
            "bench" => Command::Bench(file.as_str()),
            _ => Command::Unknown,
        },
        _ => Command::Unknown,
    }
}
