// How long a simulation takes.
use circuit::Circuit;
use method::Method;
use simulation::{Listed, simulate};
use std::rt::Clock;
use std::time::Instant;

// One number more in a checksum.
fn sum_on(sum: u64, number: u64) -> u64 {
    sum.wrapping_mul(31).wrapping_add(number)
}

// A checksum over the fault-free word and the entries of each vector.
fn checksum<M: Method>(
    circuit: &Circuit,
    listed: &[Listed],
    vectors: &[u64],
    work: &mut [M],
    row: &mut [u64],
) -> u64 {
    let mut sum = 0;
    for vector in vectors {
        if let Ok(good) = simulate(circuit, listed, *vector, work, row) {
            sum = row
                .iter()
                .fold(sum_on(sum, good), |sum, entry| sum_on(sum, *entry));
        }
    }
    sum
}

// Prints the microseconds that a method takes and the checksum of what it files.
pub(crate) fn time_method<M: Method>(
    rt: &(impl Clock + Print + AllocGlobal),
    name: &str,
    circuit: &Circuit,
    listed: &[Listed],
    vectors: &[u64],
) -> anyhow::Result<()> {
    let mut row = Vec::new(rt.alloc());
    row.resize(listed.len(), 0)?;
    let mut work = Vec::new(rt.alloc());
    work.resize(circuit.lines(), M::spread(false))?;
    let start = Instant::now(rt)?;
    let sum = checksum(circuit, listed, vectors, &mut work[..], &mut row[..]);
    let spent = start.elapsed(rt)?.as_micros();
    println!(rt; "{name} {spent} {sum}")?;
    Ok(())
}
