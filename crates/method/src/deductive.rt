// Deductive simulation: the fault-free bit, and the set of the lanes that differ from it.
ghost use Rattle.std.specs.Prelude.{◌≡◌, ℕ, ◌-◌, ◌<◌, if◌then◌else◌, nat_eq};
ghost use Rattle.circuit.specs.Gates.{differs};
ghost use Rattle.circuit.specs.Machines.{bit_of};
ghost use Rattle.std.proofs.Common.{rules};

use crate::lanes::Method;
use crate::words;
use circuit::Kind;

#[derive(Clone, Copy)]
pub struct Deductive {
    pub good: bool,
    // Lane l at bit l - 1.
    pub differ: u64,
}

// The lanes 1 to 64 as a word, lane l at bit l - 1.
fn plain(x: Deductive) -> u64
    ensures { (l : ℕ) → l < 64 → bit_of result l ≡ differs x.good (bit_of x.differ l) }
{
    words::all(x.good) ^ x.differ
}

impl Method for Deductive {
    ghost LANES = { 64 };

    const LANES: usize = 64;

    ghost lane = { λ x l. (if nat_eq l 0 then x.good else differs x.good (bit_of x.differ (l - 1))) };

    ghost least = { Prim.search rules };

    ghost most = { Prim.search rules };

    fn spread(bit: bool) -> Deductive {
        Deductive {
            good: bit,
            differ: 0,
        }
    }

    fn gate(kind: Kind, a: Deductive, b: Deductive, c: Deductive, d: Deductive) -> Deductive {
        let good = words::gate(
            kind,
            words::all(a.good),
            words::all(b.good),
            words::all(c.good),
            words::all(d.good),
        );
        let word = words::gate(kind, plain(a), plain(b), plain(c), plain(d));
        Deductive {
            good: words::bit(good, 0),
            differ: good ^ word,
        }
    }

    fn stick(self, at: usize, bit: bool) -> Deductive {
        if at == 0 || at > Self::LANES {
            return self;
        }
        Deductive {
            good: self.good,
            differ: words::put(self.differ, at - 1, bit != self.good),
        }
    }

    fn look(self, at: usize) -> bool {
        if at == 0 || at > Self::LANES {
            return self.good;
        }
        words::bit(self.differ, at - 1) != self.good
    }
}
