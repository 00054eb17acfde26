//! A runner that deduces: from the code of a program to a PIE that is accepted alone (docs/RUNNER.md).
#![tactic(auto)]

mod completion;
mod deductions;
mod hashes;
mod laws;
mod operands;
mod puts;
mod refusal;
mod runner;
mod running;
mod starting;
mod stepping;

pub use laws::{one_run_answer, states_are_isolated};
pub use refusal::RunRefusal;
pub use runner::run;
