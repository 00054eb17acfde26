//! A generator of scripts for a desk: each line hands in the PIE of a countdown (docs/SERVICE.md).
#![tactic(auto)]

mod countdown;
mod generator;
mod laws;
pub mod limits;
mod rows;

pub use countdown::down;
pub use generator::make_script;
pub use laws::{down_is_accepted, down_keeps_rules, made_jobs_are_admitted};
