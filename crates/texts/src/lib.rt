// What the readers of the project have in common: the lines of a text, and the bytes of names and between them.
#![tactic(auto)]

mod bytes;
mod lines;

pub use bytes::{in_name, is_space};
pub use lines::Lines;
