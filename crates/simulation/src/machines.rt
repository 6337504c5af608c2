// One machine under one vector.
ghost use Rattle.std.specs.Prelude.{◌≡◌, length, drop};
ghost use Rattle.circuit.specs.Machines.{word};
ghost use Rattle.circuit.specs.Plans.{plan};
ghost use Rattle.simulation.specs.Checks.{checks, answered, Granted};
ghost use Rattle.simulation.specs.Lanes.{Shows};
ghost use Rattle.simulation.specs.Rows.{only, last_batch};

use crate::listing::Listed;
use crate::refusals::Unfit;
use crate::rows::simulate;
use circuit::{Circuit, Fault};
use method::Method;

// The output word of the circuit with one fault or none. The working table is left as by `simulate` with that fault alone.
pub fn machine_word<M: Method>(
    circuit: &Circuit,
    machine: Option<Fault>,
    vector: u64,
    work: &mut [M],
) -> Result<u64, Unfit>
    ensures value { result ≡ answered (checks (plan circuit.now) 0 vector (length work.old) 0) (word (plan circuit.now) machine vector) }
    ensures shows { Granted result (Shows M.Method.lane M.Method.LANES (last_batch M.Method.LANES (only machine)) vector (plan circuit.now).lines work.new) (work.new ≡ work.old) }
    ensures beyond { drop (length (plan circuit.now).lines) work.new ≡ drop (length (plan circuit.now).lines) work.old }
{
    let listed = machine.map(|fault| Listed {
        fault,
        dropped: false,
    });
    let mut row = [0; 1];
    let good = simulate(circuit, listed.as_slice(), vector, work, &mut row)?;
    Ok(row[0] ^ good)
}
