// Parallel simulation: the lanes are the bits of a word.
ghost use Rattle.circuit.specs.Machines.{bit_of};
ghost use Rattle.std.proofs.Common.{rules};

use crate::lanes::Method;
use crate::words;
use circuit::Kind;

#[derive(Clone, Copy)]
pub struct Parallel {
    // Lane l at bit l.
    pub word: u64,
}

impl Method for Parallel {
    ghost LANES = { 63 };

    const LANES: usize = 63;

    ghost lane = { λ x l. bit_of x.word l };

    ghost least = { Prim.search rules };

    ghost most = { Prim.search rules };

    fn spread(bit: bool) -> Parallel {
        Parallel {
            word: words::all(bit),
        }
    }

    fn gate(kind: Kind, a: Parallel, b: Parallel, c: Parallel, d: Parallel) -> Parallel {
        Parallel {
            word: words::gate(kind, a.word, b.word, c.word, d.word),
        }
    }

    fn stick(self, at: usize, bit: bool) -> Parallel {
        if at == 0 || at > Self::LANES {
            return self;
        }
        Parallel {
            word: words::put(self.word, at, bit),
        }
    }

    fn look(self, at: usize) -> bool {
        if at > Self::LANES {
            return words::bit(self.word, 0);
        }
        words::bit(self.word, at)
    }
}
