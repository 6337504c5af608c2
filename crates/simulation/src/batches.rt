// The faults that are simulated together.
ghost use Rattle.std.specs.Prelude.{◌≡◌, ℕ, ◌<◌, length, None, slice_index_or};
ghost use Rattle.simulation.specs.Lanes.{line_at, latest};

use circuit::{Fault, Few, MAX_LINES};

mod chains;

// The most faults that a batch holds.
pub(crate) const MAX_BATCH: usize = 64;

// Fault i stands in lane i + 1. The faults that sit at one line form a chain, the last fault first. A batch fits on the stack, since
// nothing may lack memory while a vector is simulated.
// The links are an array of their own: kept beside each fault in one list, they made deductive simulation slower, 308 ms for 264.
#[derive(Clone, Copy)]
pub(crate) struct Batch {
    pub(crate) faults: Few<Fault, MAX_BATCH>,
    // For each line the last fault there.
    pub(crate) heads: [Option<u8>; MAX_LINES],
    // For each fault the last fault before it at the same line.
    pub(crate) links: [Option<u8>; MAX_BATCH],
    ghost tops: { (g : ℕ) → g < 1024 → slice_index_or heads g None ≡ latest faults.items g (length faults.items) },
    ghost nexts: { (i : ℕ) → i < length faults.items → line_at faults.items i < 1024 → slice_index_or links i None ≡ latest faults.items (line_at faults.items i) i },
}
