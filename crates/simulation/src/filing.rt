// Batches of the listed faults, and the entries that they give.
ghost use Rattle.std.specs.Prelude.{◌≡◌, ◌≤◌, ◌++◌, map, length, None};
ghost use Rattle.circuit.specs.Machines.{word};
ghost use Rattle.circuit.specs.Plans.{plan};
ghost use Rattle.simulation.specs.Lanes.{lane_word, Shows};
ghost use Rattle.simulation.specs.Members.{members};
ghost use Rattle.simulation.specs.Rows.{live, front, filed, entry};

use crate::batches::Batch;
use crate::listing::Listed;
use crate::walking::walk;
use circuit::Circuit;
use method::Method;

// The entry of a dropped fault: a number and no option, since a row is a table of 64-bit numbers as it is filed.
pub(crate) const DROPPED: u64 = u64::MAX;

// How many of the listed faults, from the first on, one batch of so many lanes takes.
pub(crate) fn batch_len(listed: &[Listed], lanes: usize) -> usize
    ensures { result ≡ front lanes listed.now }
{
    listed
        .iter()
        .enumerate()
        .filter(|(_, one)| one.is_live())
        .nth(lanes)
        .map_or(listed.len(), |(i, _)| i)
}

// Adds the undropped faults, each in its lane. The batch is filled where it lies, since it is large to copy.
fn gather(batch: &mut Batch, listed: &[Listed])
    requires { length (members batch.old ++ live listed.now) ≤ 64 }
    ensures { members batch.new ≡ members batch.old ++ live listed.now }
{
    for one in listed {
        if one.is_live() {
            batch.add(one.fault);
        }
    }
}

// The output word of a lane: output j at bit j.
fn read_word<M: Method>(circuit: &Circuit, lane: usize, stems: &[M]) -> u64
    requires lane { lane ≤ M.Method.LANES }
    requires stems { length (plan circuit.now).lines ≤ length stems.now }
    ensures { result ≡ lane_word M.Method.lane stems.now (plan circuit.now).outputs lane }
{
    // A loop: no lemma of the library on `fold` bounds a word that doubles at each output, so that it fits.
    let mut word = 0;
    for line in circuit.draft.outputs.as_slice().iter().rev() {
        word = word * 2 + u64::from(stems[*line as usize].look(lane));
    }
    word
}

// Writes the entries of the listed faults into the row, and answers the fault-free word.
fn file<M: Method>(circuit: &Circuit, listed: &[Listed], stems: &[M], row: &mut [u64]) -> u64
    requires stems { length (plan circuit.now).lines ≤ length stems.now }
    requires lanes { length (live listed.now) ≤ M.Method.LANES }
    requires row { length row.old ≡ length listed.now }
    ensures good { result ≡ lane_word M.Method.lane stems.now (plan circuit.now).outputs 0 }
    ensures entries { row.new ≡ filed (lane_word M.Method.lane stems.now (plan circuit.now).outputs) 0 listed.now }
{
    let good = read_word(circuit, 0, stems);
    // The live faults alone are counted, so the place in the list is not the lane.
    let mut lane = 0;
    for (i, one) in listed.iter().enumerate() {
        row[i] = if one.is_live() {
            lane += 1;
            read_word(circuit, lane, stems) ^ good
        } else {
            DROPPED
        };
    }
    good
}

// Simulates the listed faults in one batch, writes their entries into the row, and answers the fault-free word.
pub(crate) fn run_batch<M: Method>(
    circuit: &Circuit,
    listed: &[Listed],
    vector: u64,
    work: &mut [M],
    row: &mut [u64],
) -> u64
    requires lanes { length (live listed.now) ≤ M.Method.LANES }
    requires work { length (plan circuit.now).lines ≤ length work.old }
    requires row { length row.old ≡ length listed.now }
    ensures good { result ≡ word (plan circuit.now) None vector }
    ensures entries { row.new ≡ map (entry (plan circuit.now) vector) listed.now }
    ensures shows { Shows M.Method.lane M.Method.LANES (live listed.now) vector (plan circuit.now).lines work.new }
{
    let mut batch = Batch::new();
    gather(&mut batch, listed);
    walk(circuit, &batch, vector, work);
    file(circuit, listed, &work[..circuit.lines()], row)
}
