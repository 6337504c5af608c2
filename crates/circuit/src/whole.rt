// A circuit: empty, or whole.
ghost use Rattle.std.specs.Prelude.{◌<◌, ◌≤◌, vec_len};

use crate::drafts::Draft;

mod questions;
mod survey;

// Made empty once, with room for the largest circuit; then filled, refilled or emptied.
#[derive(Drop)]
pub struct Circuit {
    pub draft: Draft,
    ghost whole: { (0 < vec_len draft.lines → (1 ≤ draft.inputs) × (1 ≤ vec_len draft.outputs)) },
}
