ghost use Rattle.std.specs.Prelude.{◌≡◌, true, false, length, IfOk, ◌==◌};
ghost use Rattle.std.specs.List.{slice_get};
ghost use Rattle.std.specs.Option.{option_map};
ghost use Rattle.circuit.specs.Names.{find};
ghost use Rattle.circuit.specs.Shape.{inputs_in};
ghost use Rattle.circuit.specs.Plans.{plan, empty, Sound, pins_at, has_site};
ghost use Rattle.circuit.specs.Spelled.{bytes_of};

use super::Circuit;
use crate::drafts::Draft;
use crate::faults::Site;
use crate::lines::Line;
use crate::names::Name;
use std::alloc::{AllocError, Global};

impl Circuit {
    // The empty circuit. This is the one place where want of memory can show.
    pub fn new(heap: Global) -> Result<Circuit, AllocError>
        ensures { IfOk result (λ c. plan c ≡ empty) }
    {
        let draft = Draft::new(heap)?;
        Ok(Circuit { draft })
    }

    pub fn clear(&mut self)
        ensures { plan self.new ≡ empty }
    {
        self.draft.clear();
    }

    // Every circuit is empty, or sound.
    pub fn is_empty(&self) -> bool
        ensures value { result ≡ (length (plan self.now).lines == 0) }
        ensures empty { result ≡ true → plan self.now ≡ empty }
        ensures sound { result ≡ false → Sound (plan self.now) }
    {
        self.draft.is_empty()
    }

    pub fn lines(&self) -> usize
        ensures { result ≡ length (plan self.now).lines }
    {
        self.draft.lines.len()
    }

    pub fn inputs(&self) -> usize
        ensures { result ≡ inputs_in (plan self.now).lines }
    {
        self.draft.inputs
    }

    pub fn outputs(&self) -> usize
        ensures { result ≡ length (plan self.now).outputs }
    {
        self.draft.outputs.len()
    }

    pub fn line(&self, number: usize) -> Option<Line>
        ensures { result ≡ slice_get (plan self.now).lines number }
    {
        self.draft.lines.get(number).copied()
    }

    // The line that an output shows.
    pub fn output(&self, number: usize) -> Option<u16>
        ensures { result ≡ slice_get (plan self.now).outputs number }
    {
        self.draft.outputs.get(number).copied()
    }

    // The name of a line.
    pub fn name(&self, number: usize) -> Option<Name>
        ensures { option_map bytes_of result ≡ slice_get (plan self.now).names number }
    {
        self.draft.names.get(number).copied()
    }

    // The line of a name.
    pub fn line_of(&self, name: &[u8]) -> Option<usize>
        ensures { result ≡ find (plan self.now).names name.now }
    {
        self.draft.line_of(name)
    }

    // Whether the circuit has a stem or a pin there.
    pub fn has_site(&self, site: Site) -> bool
        ensures { result ≡ has_site (plan self.now) site }
    {
        match site {
            Site::Stem(line) => (line as usize) < self.lines(),
            Site::Pin(line, pin) => (pin as usize) < pins_at(self.line(line as usize)),
        }
    }
}

// How many pins the gate that drives a line has: none at an input, or where there is no line.
fn pins_at(line: Option<Line>) -> usize
    ensures { result ≡ pins_at line }
{
    match line {
        Some(Line::Gate(gate)) => gate.pins.as_slice().len(),
        _ => 0,
    }
}
