// A whole netlist.
ghost use Rattle.std.specs.Prelude.{◌≡◌, ◌≤◌, length, IfErr, OnErr};
ghost use Rattle.circuit.specs.Plans.{plan, plan_of, empty};
ghost use Rattle.texts.specs.Lines.{lines_of};
ghost use Rattle.netlist.specs.Driving.{outcome};
ghost use Rattle.netlist.specs.Grammar.{Lawful};
ghost use Rattle.netlist.specs.Reading.{tell, filling, meaning, Placed};

use crate::driving::{Drive, Pass, Show};
use crate::statements::read_statement;
use crate::tokens::Scanner;
use circuit::{Circuit, Draft, Refusal};
use texts::Lines;

// The most bytes that a text has.
pub const MAX_TEXT: usize = 65_536;

// The statements of a text, one by one.
fn read_lines<P: Pass>(pass: &mut P, text: &[u8], draft: &mut Draft) -> Result<(), Refusal>
    requires { length text.now ≤ 65536 }
    ensures { outcome result (P.seen pass.new (plan_of draft.new)) ≡ tell P.step 1 (P.seen pass.old (plan_of draft.old)) (lines_of text.now) }
{
    for (i, line) in Lines::new(text).enumerate() {
        let mut scanner = Scanner::new(line, i + 1);
        let statement = read_statement(&mut scanner)?;
        pass.take(draft, statement)?;
    }
    Ok(())
}

// The text's length, the statements in order, the outputs' names in order, then what is lacking.
fn fill(text: &[u8], draft: &mut Draft) -> Result<(), Refusal>
    ensures { outcome result (plan_of draft.new) ≡ filling (plan_of draft.old) text.now }
{
    if text.len() > MAX_TEXT {
        return Err(Refusal::LongText);
    }
    read_lines(&mut Drive { asked: 0 }, text, draft)?;
    read_lines(&mut Show, text, draft)?;
    if draft.inputs == 0 {
        return Err(Refusal::NoInput);
    }
    if draft.outputs.is_empty() {
        return Err(Refusal::NoOutput);
    }
    Ok(())
}

// Reads a netlist into a circuit. A refused reading leaves the circuit empty.
pub fn read(text: &[u8], circuit: &mut Circuit) -> Result<(), Refusal>
    ensures value { outcome result (plan circuit.new) ≡ meaning text.now }
    ensures emptied { OnErr result (plan circuit.new ≡ empty) }
    ensures placed { IfErr result (λ e. Placed text.now e) }
    ensures law { Lawful text.now result (plan circuit.new) }
{
    circuit.draft.clear();
    match fill(text, &mut circuit.draft) {
        Ok(()) => Ok(()),
        Err(refusal) => {
            circuit.draft.clear();
            Err(refusal)
        }
    }
}
