ghost use Rattle.std.specs.Prelude.{◌≡◌, ◌<◌, length, IfSome, IfOk, vec_len, ◌==◌};
ghost use Rattle.circuit.specs.Names.{find};
ghost use Rattle.circuit.specs.Plans.{plan_of, empty};

use super::{Draft, MAX_LINES, MAX_OUTPUTS};
use crate::names;
use std::alloc::{AllocError, Global};

impl Draft {
    // An empty draft with room for the largest circuit.
    pub fn new(heap: Global) -> Result<Draft, AllocError>
        ensures { IfOk result (λ d. plan_of d ≡ empty) }
    {
        let lines = Vec::with_capacity(heap, MAX_LINES)?;
        let names = Vec::with_capacity(heap, MAX_LINES)?;
        let outputs = Vec::with_capacity(heap, MAX_OUTPUTS)?;
        Ok(Draft {
            lines,
            names,
            outputs,
            inputs: 0,
        })
    }

    pub fn clear(&mut self)
        ensures { plan_of self.new ≡ empty }
    {
        self.outputs.clear();
        self.lines.clear();
        self.names.clear();
        self.inputs = 0;
    }

    pub(crate) fn is_empty(&self) -> bool
        ensures { result ≡ (length (plan_of self.now).lines == 0) }
    {
        self.lines.is_empty()
    }

    // The line of a name.
    pub fn line_of(&self, name: &[u8]) -> Option<usize>
        ensures value { result ≡ find (plan_of self.now).names name.now }
        ensures within { IfSome result (λ i. i < vec_len self.now.lines) }
    {
        names::find(self.names.as_slice(), name)
    }
}
