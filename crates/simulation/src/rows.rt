// One vector for a list of faults.
ghost use Rattle.std.specs.Prelude.{◌≡◌, ◌≤◌, ◌++◌, map, length, drop, None};
ghost use Rattle.circuit.specs.Machines.{word};
ghost use Rattle.circuit.specs.Plans.{plan};
ghost use Rattle.circuit.specs.Shape.{inputs_in};
ghost use Rattle.simulation.specs.Lanes.{Shows};
ghost use Rattle.simulation.specs.Rows.{live, last_batch, entry};
ghost use Rattle.simulation.specs.Laws.{Lawful};
ghost use Rattle.simulation.specs.Checks.{stray, checks, answered, after, Granted};

use crate::filing::{batch_len, run_batch};
use crate::listing::Listed;
use crate::refusals::Unfit;
use circuit::Circuit;
use method::{Method, bit};

// Simulates the undropped faults, batch by batch, writes the row's entries and answers the fault-free word. The circuit and its table
// go on side by side to `run_batch` and `walk`: a struct that borrows both would be taken apart in each.
pub(crate) fn run<M: Method>(
    circuit: &Circuit,
    listed: &[Listed],
    vector: u64,
    work: &mut [M],
    row: &mut [u64],
) -> u64
    requires work { length (plan circuit.now).lines ≤ length work.old }
    requires room { length listed.now ≤ length row.old }
    ensures good { result ≡ word (plan circuit.now) None vector }
    ensures entries { row.new ≡ map (entry (plan circuit.now) vector) listed.now ++ drop (length listed.now) row.old }
    ensures shows { Shows M.Method.lane M.Method.LANES (last_batch M.Method.LANES (live listed.now)) vector (plan circuit.now).lines work.new }
{
    // A batch is as long as its faults allow, and the last may have none, so no iterator of the library's gives the parts.
    let mut start = 0;
    loop {
        let end = start + batch_len(&listed[start..], M::LANES);
        let good = run_batch(
            circuit,
            &listed[start..end],
            vector,
            work,
            &mut row[start..end],
        );
        if end == listed.len() {
            return good;
        }
        start = end;
    }
}

// The lowest bit of the vector past the inputs.
fn stray(circuit: &Circuit, vector: u64) -> Option<usize>
    ensures value { result ≡ stray (inputs_in (plan circuit.now).lines) vector }
    ensures law { Lawful (plan circuit.now) vector }
{
    (circuit.inputs()..64).find(|j| bit(vector, *j))
}

// Refuses a bit past the inputs, a short working table, or a short row.
fn check(
    circuit: &Circuit,
    faults: usize,
    vector: u64,
    work: usize,
    row: usize,
) -> Result<(), Unfit>
    ensures value { result ≡ checks (plan circuit.now) faults vector work row }
    ensures law { Lawful (plan circuit.now) vector }
{
    if let Some(bit) = stray(circuit, vector) {
        return Err(Unfit::Stray(bit));
    }
    if work < circuit.lines() {
        return Err(Unfit::Short(circuit.lines()));
    }
    if row < faults {
        return Err(Unfit::Short(faults));
    }
    Ok(())
}

// Simulates the listed faults under one vector: an entry of the row becomes its fault's fail word, or all ones for a dropped
// fault, and the first entries of the working table, one per line, the stems' values of the last batch. Answers the fault-free
// word. A bit past the inputs, a short working table or a short row is refused, and then nothing changes.
pub fn simulate<M: Method>(
    circuit: &Circuit,
    listed: &[Listed],
    vector: u64,
    work: &mut [M],
    row: &mut [u64],
) -> Result<u64, Unfit>
    ensures value { result ≡ answered (checks (plan circuit.now) (length listed.now) vector (length work.old) (length row.old)) (word (plan circuit.now) None vector) }
    ensures entries { row.new ≡ after (checks (plan circuit.now) (length listed.now) vector (length work.old) (length row.old)) (map (entry (plan circuit.now) vector) listed.now ++ drop (length listed.now) row.old) row.old }
    ensures shows { Granted result (Shows M.Method.lane M.Method.LANES (last_batch M.Method.LANES (live listed.now)) vector (plan circuit.now).lines work.new) (work.new ≡ work.old) }
    ensures beyond { drop (length (plan circuit.now).lines) work.new ≡ drop (length (plan circuit.now).lines) work.old }
    ensures law { Lawful (plan circuit.now) vector }
{
    check(circuit, listed.len(), vector, work.len(), row.len())?;
    let table = &mut work[..circuit.lines()];
    Ok(run(circuit, listed, vector, table, row))
}
