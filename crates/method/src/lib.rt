// Methods of simulation: a line's value in many machines at once.
#![tactic(auto)]

mod deductive;
mod lanes;
mod parallel;
mod words;

pub use deductive::Deductive;
pub use lanes::Method;
pub use parallel::Parallel;
pub use words::bit;
