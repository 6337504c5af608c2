// Every fault of a circuit.
ghost use Rattle.std.specs.Prelude.{◌≡◌, ◌++◌, IfOk, OnOk};
ghost use Rattle.circuit.specs.Plans.{plan};
ghost use Rattle.textfiles.specs.Universe.{both, pin_faults, line_faults, every_fault};

use circuit::{Circuit, Fault, Line, Site};
use std::alloc::{AllocError, Global};

// The two faults of a site.
fn push_both(faults: &mut Vec<Fault>, site: Site) -> Result<(), AllocError>
    ensures { OnOk result (faults.new.items ≡ faults.old.items ++ both site) }
{
    faults.push(Fault { site, stuck: false })?;
    faults.push(Fault { site, stuck: true })?;
    Ok(())
}

// The faults of the pins of a line's gate, pins upward.
#[tactic(auto, using(crate::proofs::Pushes::next_pin))]
fn push_pins(faults: &mut Vec<Fault>, line: u16, count: u8) -> Result<(), AllocError>
    ensures { OnOk result (faults.new.items ≡ faults.old.items ++ pin_faults line 0 count) }
{
    for pin in 0..count {
        push_both(faults, Site::Pin(line, pin))?;
    }
    Ok(())
}

// The faults of a line: its stem, then its gate's pins.
fn push_line(faults: &mut Vec<Fault>, number: u16, line: Line) -> Result<(), AllocError>
    ensures { OnOk result (faults.new.items ≡ faults.old.items ++ line_faults number line) }
{
    push_both(faults, Site::Stem(number))?;
    match line {
        Line::Input(_) => Ok(()),
        Line::Gate(gate) => push_pins(faults, number, gate.pins.as_slice().len() as u8),
    }
}

// Lines upward; of each line its stem, then its gate's pins; of each site stuck at 0, then at 1.
pub fn every_fault(heap: Global, circuit: &Circuit) -> Result<Vec<Fault>, AllocError>
    ensures { IfOk result (λ v. v.items ≡ every_fault (plan circuit.now)) }
{
    let mut faults = Vec::new(heap);
    for (number, line) in circuit.draft.lines.as_slice().iter().enumerate() {
        push_line(&mut faults, number as u16, *line)?;
    }
    Ok(faults)
}
