// A gate's kind and its pins.
ghost use Rattle.std.specs.Prelude.{◌≡◌, true};
ghost use Rattle.circuit.specs.Gates.{fits};

use crate::tokens::Scanner;
use circuit::Kind;

// How many pins there are, and the rest of the line from the first of them on.
#[derive(Clone, Copy)]
pub(crate) struct Pins<'t> {
    pub(crate) kind: Kind,
    pub(crate) count: usize,
    pub(super) scanner: Scanner<'t>,
    ghost fitted: { fits kind count ≡ true },
}
