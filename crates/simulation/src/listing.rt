// The faults listed, and which of them are dropped.
ghost use Rattle.std.specs.Prelude.{◌≡◌, not};

use circuit::Fault;

#[derive(Clone, Copy)]
pub struct Listed {
    pub fault: Fault,
    // It is simulated no more. An enum would hold the same fault in both of its cases.
    pub dropped: bool,
}

impl Listed {
    // Whether it is still simulated.
    pub(crate) fn is_live(self) -> bool
        ensures { not result ≡ self.dropped }
    {
        !self.dropped
    }
}
