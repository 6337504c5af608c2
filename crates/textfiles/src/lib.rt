// Vectors, fault lists and logs as text files.
#![tactic(auto)]

mod cursors;
mod faults;
mod flaws;
mod items;
mod universe;
mod vectors;
mod writing;

pub use faults::{read_fault, read_faults};
pub use flaws::{Flaw, ReadError, What};
pub use universe::every_fault;
pub use vectors::read_vectors;
pub use writing::{bits_text, fault_text, log_line};
