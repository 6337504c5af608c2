// What the program says of a vector that is not simulated and of a flaw in a text.
ghost use Rattle.std.specs.Prelude.{◌≡◌, IfOk, string_bytes};
ghost use Rattle.safd_next.specs.Messages.{unfit_line, flaw_line};

use simulation::Unfit;
use std::alloc::{AllocError, Global};
use textfiles::Flaw;

// The bit or the length at which a vector is not simulated, and why.
pub(crate) fn unfit_line(heap: Global, unfit: Unfit) -> Result<String, AllocError>
    ensures { IfOk result (λ s. string_bytes s ≡ unfit_line unfit) }
{
    let number = unfit.number();
    let word = unfit.word();
    let place = unfit.place();
    format!(in heap; "safd: refusal {number}, {word} at {place}: {unfit}")
}

// Where a text is not read, and why.
pub(crate) fn flaw_line(heap: Global, file: &str, flaw: Flaw) -> Result<String, AllocError>
    ensures { IfOk result (λ s. string_bytes s ≡ flaw_line file.now flaw) }
{
    format!(in heap; "{file}:{flaw}")
}
