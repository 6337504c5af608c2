// Where a fault sits, and the value that it sticks at.
ghost use Rattle.std.specs.Prelude.{◌≡◌};
ghost use Rattle.circuit.specs.Plans.{line_of};

#[derive(Clone, Copy, Debug, PartialEq, Eq)]
pub enum Site {
    // A circuit line.
    Stem(u16),
    // One pin of the gate that drives a line.
    Pin(u16, u8),
}

impl Site {
    // The line of the stem, or that the pin's gate drives.
    pub fn line(self) -> u16
        ensures { result ≡ line_of self }
    {
        match self {
            Site::Stem(line) | Site::Pin(line, _) => line,
        }
    }
}

#[derive(Clone, Copy, Debug, PartialEq, Eq)]
pub struct Fault {
    pub site: Site,
    pub stuck: bool,
}
