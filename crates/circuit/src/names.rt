// A line's name: at most sixteen bytes, in memory of fixed size.
ghost use Rattle.std.specs.Prelude.{◌≡◌, ◌-◌, ◌≤◌, length, replicate};
ghost use Rattle.circuit.specs.Names.{print_of};

use crate::few::Few;

mod naming;

pub(crate) use naming::find;

// The most bytes that a name has.
pub const MAX_NAME: usize = 16;

// No Model: behind a reference, and in a list, a Model's value alone carries no bound.
#[derive(Clone, Copy, Debug, PartialEq, Eq)]
pub struct Name {
    bytes: Few<u8, MAX_NAME>,
    // Equal names have equal prints, so unequal prints tell names apart at once.
    print: u64,
    ghost short: { length bytes.items ≤ 16 },
    ghost spared: { bytes.spare ≡ replicate (16 - length bytes.items) 0 },
    ghost printed: { print ≡ print_of bytes.items },
}
