// What a method of simulation is.
ghost use Rattle.std.specs.Prelude.{◌≡◌, ℕ, ◌≤◌, Bool, ◌&&◌, [], ◌∷◌, if◌then◌else◌, nat_eq, nat_le};
ghost use Rattle.circuit.specs.Gates.{gate_on};

use circuit::Kind;

// A line's value in the lanes 0 to `LANES`, each 0 or 1; lane 0 is the fault-free machine.
pub trait Method: Copy {
    // How many lanes there are beside lane 0.
    ghost LANES: { ℕ };

    const LANES: usize;

    // The bit that a value holds in a lane.
    ghost lane: { Self → ℕ → Bool };

    // One bit in every lane.
    fn spread(bit: bool) -> Self
        ensures { (l : ℕ) → l ≤ LANES → lane result l ≡ bit };

    // A gate's answer, lane by lane. The pins are no array: by value, each impl would have to repeat the clause, and by reference, a
    // caller would have to know that four values fit in memory.
    fn gate(kind: Kind, a: Self, b: Self, c: Self, d: Self) -> Self
        ensures { (l : ℕ) → l ≤ LANES → lane result l ≡ gate_on kind (lane a l ∷ lane b l ∷ lane c l ∷ lane d l ∷ []) };

    // The value with a bit in one lane from 1 to the last; another lane number changes nothing.
    fn stick(self, at: usize, bit: bool) -> Self
        ensures { (l : ℕ) → l ≤ LANES → lane result l ≡ (if nat_eq l at && nat_le 1 at then bit else lane self l) };

    // The bit in a lane; lane 0's for a lane past the last.
    fn look(self, at: usize) -> bool
        ensures { result ≡ lane self (if nat_le at LANES then at else 0) };

    ghost least: { 1 ≤ LANES };

    ghost most: { LANES ≤ 64 };
}
