//! Runs a script's lines one after another on a desk of its own, each as its client's pass, and makes all batches at the end.
#![tactic(auto)]

mod doing;
mod running;

pub use running::run_script;
