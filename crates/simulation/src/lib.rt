// One vector simulated for a list of faults, many machines at once.
#![tactic(auto)]

mod batches;
mod filing;
mod listing;
mod machines;
mod refusals;
mod rows;
mod walking;

pub use listing::Listed;
pub use machines::machine_word;
pub use refusals::Unfit;
pub use rows::simulate;
