// What one statement adds to a draft.
ghost use Rattle.std.specs.Prelude.{◌≡◌, ◌<◌, ◌≤◌, [], ◌∷◌, ◌++◌, None, Result, vec_len};
ghost use Rattle.circuit.specs.Names.{find};
ghost use Rattle.circuit.specs.Shape.{inputs_in};
ghost use Rattle.circuit.specs.Spelled.{bytes_of};
ghost use Rattle.circuit.specs.Plans.{Plan, plan_of};
ghost use Rattle.circuit.specs.declared.refusals.Refusal.{Refusal};
ghost use Rattle.netlist.specs.Statements.{Stmt, named, pin_labels, stmt_of};
ghost use Rattle.netlist.specs.Driving.{Fits, State, state, with_line, outcome, spelt, want_short, want_room, want_undriven, short_pins, resolve, drive_input, drive_gate, ask_output, show_output, drive, show};

use crate::statements::{Label, Pins, Statement};
use circuit::{Draft, Gate, Line, MAX_INPUTS, MAX_LINES, MAX_NAME, MAX_OUTPUTS, Name, Refusal};

// What one of the two readings of a text does with its statements.
pub(crate) trait Pass {
    // What a statement changes: the circuit in the making, and what the reading counts.
    ghost Seen: { Type 0 };

    ghost seen: { Self → Plan → Seen };

    ghost step: { Seen → Stmt → Result Seen Refusal };

    fn take(&mut self, draft: &mut Draft, statement: Statement<'_>) -> Result<(), Refusal>
        ensures { outcome result (seen self.new (plan_of draft.new)) ≡ step (seen self.old (plan_of draft.old)) (stmt_of statement.entry) };
}

// The first reading drives the lines, and only counts the outputs asked for, since their lines may come later.
#[derive(Drop)]
pub(crate) struct Drive {
    pub(crate) asked: usize,
}

// The second reading shows the outputs, in their order.
#[derive(Drop)]
pub(crate) struct Show;

// One line more, with its name; `inputs` is the number of inputs with it.
fn push_line(draft: &mut Draft, name: Name, line: Line, inputs: usize)
    requires room { vec_len draft.old.lines < 1024 }
    requires fresh { find (plan_of draft.old).names (bytes_of name) ≡ None }
    requires line { Fits draft.old.lines.items line }
    requires inputs { (inputs ≡ inputs_in (draft.old.lines.items ++ line ∷ [])) × (inputs ≤ 64) }
    ensures { plan_of draft.new ≡ with_line (plan_of draft.old) (bytes_of name) line }
{
    draft.lines.push_reserved(line);
    draft.names.push_reserved(name);
    draft.inputs = inputs;
}

fn want_short(label: Label<'_>) -> Result<Name, Refusal>
    ensures { spelt result ≡ want_short (named label.entry) }
{
    Name::new(label.bytes).ok_or(Refusal::LongName(label.place))
}

fn want_room(draft: &Draft, label: Label<'_>) -> Result<(), Refusal>
    ensures { result ≡ want_room (plan_of draft.now) (named label.entry) }
{
    if draft.lines.len() >= MAX_LINES {
        return Err(Refusal::ManyLines(label.place));
    }
    Ok(())
}

fn want_undriven(draft: &Draft, label: Label<'_>) -> Result<(), Refusal>
    ensures { result ≡ want_undriven (plan_of draft.now) (named label.entry) }
{
    match draft.line_of(label.bytes) {
        Some(_) => Err(Refusal::Redriven(label.place)),
        None => Ok(()),
    }
}

fn drive_input(draft: &mut Draft, label: Label<'_>) -> Result<(), Refusal>
    ensures { outcome result (plan_of draft.new) ≡ drive_input (plan_of draft.old) (named label.entry) }
{
    let name = want_short(label)?;
    want_room(draft, label)?;
    let inputs = draft.inputs;
    if inputs >= MAX_INPUTS {
        return Err(Refusal::ManyInputs(label.place));
    }
    want_undriven(draft, label)?;
    push_line(draft, name, Line::Input(inputs as u8), inputs + 1);
    Ok(())
}

// Every pin's name is short enough.
fn want_short_pins(pins: Pins<'_>) -> Result<(), Refusal>
    ensures { result ≡ short_pins (pin_labels pins.entry) }
{
    for label in pins.labels() {
        if label.bytes.len() > MAX_NAME {
            return Err(Refusal::LongName(label.place));
        }
    }
    Ok(())
}

// The lines that feed the pins.
fn find_pins(draft: &Draft, pins: Pins<'_>) -> Result<circuit::Pins, Refusal>
    ensures { result ≡ resolve (plan_of draft.now).names (pin_labels pins.entry) }
{
    let mut found = circuit::Pins::new();
    for label in pins.labels() {
        let line = draft
            .line_of(label.bytes)
            .ok_or(Refusal::UnknownPin(label.place))?;
        found.push(line as u16).unwrap();
    }
    Ok(found)
}

fn drive_gate(draft: &mut Draft, label: Label<'_>, pins: Pins<'_>) -> Result<(), Refusal>
    ensures { outcome result (plan_of draft.new) ≡ drive_gate (plan_of draft.old) (named label.entry) pins.entry.kind (pin_labels pins.entry) }
{
    let name = want_short(label)?;
    want_room(draft, label)?;
    want_short_pins(pins)?;
    want_undriven(draft, label)?;
    let found = find_pins(draft, pins)?;
    let gate = Gate {
        kind: pins.kind,
        pins: found,
    };
    let inputs = draft.inputs;
    push_line(draft, name, Line::Gate(gate), inputs);
    Ok(())
}

// The line that an OUTPUT statement names, shown as the next output.
fn show_output(draft: &mut Draft, label: Label<'_>) -> Result<(), Refusal>
    ensures { outcome result (plan_of draft.new) ≡ show_output (plan_of draft.old) (named label.entry) }
{
    let line = draft
        .line_of(label.bytes)
        .ok_or(Refusal::UnknownOutput(label.place))?;
    if draft.outputs.len() >= MAX_OUTPUTS {
        return Err(Refusal::ManyOutputs(label.place));
    }
    draft.outputs.push_reserved(line as u16);
    Ok(())
}

impl Drive {
    // One OUTPUT statement more, before its line need be driven.
    fn ask_output(&mut self, label: Label<'_>) -> Result<(), Refusal>
        ensures { outcome result self.new.asked ≡ ask_output self.old.asked (named label.entry) }
    {
        want_short(label)?;
        if self.asked >= MAX_OUTPUTS {
            return Err(Refusal::ManyOutputs(label.place));
        }
        self.asked += 1;
        Ok(())
    }
}

impl Pass for Drive {
    ghost Seen = { State };

    ghost seen = { λ d p. state p d.asked };

    ghost step = { drive };

    fn take(&mut self, draft: &mut Draft, statement: Statement<'_>) -> Result<(), Refusal> {
        match statement {
            Statement::Blank => Ok(()),
            Statement::Input(label) => drive_input(draft, label),
            Statement::Output(label) => self.ask_output(label),
            Statement::Gate(label, pins) => drive_gate(draft, label, pins),
        }
    }
}

impl Pass for Show {
    ghost Seen = { Plan };

    ghost seen = { λ s p. p };

    ghost step = { show };

    fn take(&mut self, draft: &mut Draft, statement: Statement<'_>) -> Result<(), Refusal> {
        match statement {
            Statement::Output(label) => show_output(draft, label),
            _ => Ok(()),
        }
    }
}
