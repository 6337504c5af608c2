// The values of a circuit's stems in every lane, line by line.
ghost use Rattle.std.specs.Prelude.{◌≡◌, ℕ, ◌<◌, ◌≤◌, false, length};
ghost use Rattle.circuit.specs.Gates.{gate_on, filler};
ghost use Rattle.circuit.specs.Machines.{forced, forces, effect, binary, bit_of, value_at, pins_seen, driven, stem_value};
ghost use Rattle.circuit.specs.Plans.{plan, line_of};
ghost use Rattle.circuit.specs.Shape.{gate_of, pins_of};
ghost use Rattle.circuit.specs.Survey.{FedBelow};
ghost use Rattle.simulation.specs.Lanes.{machine_at, seen, pin_or, Shows};
ghost use Rattle.simulation.specs.Members.{members, Spared};

use crate::batches::Batch;
use circuit::{Circuit, Gate, Kind, Line, Site};
use method::{Method, bit};

// A line that the walk has reached.
#[derive(Drop)]
struct Here<'a, M> {
    batch: &'a Batch,
    line: &'a Line,
    // The stems of the lines before it.
    before: &'a [M],
    ghost low: { length before.now < 1024 },
    ghost fed: { FedBelow (length before.now) line.now },
}

// What stands for a pin that a gate lacks.
fn fill(kind: Kind) -> bool
    ensures { result ≡ filler kind }
{
    matches!(kind, Kind::And | Kind::Nand)
}

impl<'a, M: Method> Here<'a, M> {
    // The value with the faults of the batch that sit at a site of the line stuck, each in its lane.
    fn hold(&self, site: Site, start: M) -> M
        requires { line_of site ≡ length self.now.before.now }
        ensures { (l : ℕ) → l ≤ M.Method.LANES → M.Method.lane result l ≡ forced (forces (machine_at (members self.now.batch.now) l) site) (M.Method.lane start l) }
    {
        let mut value = start;
        for (lane, fault) in self.batch.at(self.before.len()) {
            if fault.site == site {
                value = value.stick(lane, fault.stuck);
            }
        }
        value
    }

    // Whether a fault sits at the line.
    fn is_faulty(&self) -> bool
        ensures { result ≡ false → Spared self.now.batch.now (length self.now.before.now) }
    {
        // An index through the reference in the field would need a proof by hand.
        let batch = self.batch;
        batch.heads[self.before.len()].is_some()
    }

    // Pin `p` of the gate that drives the line, or what stands for it.
    fn pin<const FAULTY: bool>(&self, kind: Kind, pins: &[u16], p: u8) -> M
        requires gate { self.now.line.now ≡ Line.Gate (gate_of kind pins.now) }
        requires spared { FAULTY ≡ false → Spared self.now.batch.now (length self.now.before.now) }
        ensures { (l : ℕ) → l ≤ M.Method.LANES → M.Method.lane result l ≡ pin_or (effect (machine_at (members self.now.batch.now) l)) (value_at binary (seen M.Method.lane self.now.before.now l)) (length self.now.before.now) (gate_of kind pins.now) p }
    {
        let Some(line) = pins.get(p as usize) else {
            return M::spread(fill(kind));
        };
        // As in `is_faulty`.
        let before = self.before;
        let value = before[*line as usize];
        if FAULTY {
            self.hold(Site::Pin(before.len() as u16, p), value)
        } else {
            value
        }
    }

    // What the gate that drives the line answers. Where no fault sits at the line, no pin looks for one: that saves a tenth of the time
    // of parallel simulation.
    fn gate<const FAULTY: bool>(&self, gate: &Gate) -> M
        requires gate { self.now.line.now ≡ Line.Gate gate.now }
        requires spared { FAULTY ≡ false → Spared self.now.batch.now (length self.now.before.now) }
        ensures { (l : ℕ) → l ≤ M.Method.LANES → M.Method.lane result l ≡ gate_on gate.now.kind (pins_seen (effect (machine_at (members self.now.batch.now) l)) (value_at binary (seen M.Method.lane self.now.before.now l)) (length self.now.before.now) 0 (pins_of self.now.line.now)) }
    {
        let pins = gate.pins.as_slice();
        let a = self.pin::<FAULTY>(gate.kind, pins, 0);
        let b = self.pin::<FAULTY>(gate.kind, pins, 1);
        let c = self.pin::<FAULTY>(gate.kind, pins, 2);
        let d = self.pin::<FAULTY>(gate.kind, pins, 3);
        M::gate(gate.kind, a, b, c, d)
    }

    // What drives the line.
    fn drive(&self, vector: u64) -> M
        ensures { (l : ℕ) → l ≤ M.Method.LANES → M.Method.lane result l ≡ driven binary (effect (machine_at (members self.now.batch.now) l)) (bit_of vector) (value_at binary (seen M.Method.lane self.now.before.now l)) (length self.now.before.now) self.now.line.now }
    {
        match self.line {
            Line::Gate(gate) if self.is_faulty() => self.gate::<true>(gate),
            Line::Gate(gate) => self.gate::<false>(gate),
            Line::Input(j) => M::spread(bit(vector, *j as usize)),
        }
    }

    fn stem(&self, vector: u64) -> M
        ensures { (l : ℕ) → l ≤ M.Method.LANES → M.Method.lane result l ≡ stem_value binary (effect (machine_at (members self.now.batch.now) l)) (bit_of vector) (value_at binary (seen M.Method.lane self.now.before.now l)) (length self.now.before.now) self.now.line.now }
    {
        let value = self.drive(vector);
        self.hold(Site::Stem(self.before.len() as u16), value)
    }
}

// Fills the first entries of the working table, one per line.
pub(crate) fn walk<M: Method>(circuit: &Circuit, batch: &Batch, vector: u64, work: &mut [M])
    requires { length (plan circuit.now).lines ≤ length work.old }
    ensures { Shows M.Method.lane M.Method.LANES (members batch.now) vector (plan circuit.now).lines work.new }
{
    for (i, line) in circuit.draft.lines.as_slice().iter().enumerate() {
        let here = Here {
            batch,
            line,
            before: &work[..i],
        };
        work[i] = here.stem(vector);
    }
}
