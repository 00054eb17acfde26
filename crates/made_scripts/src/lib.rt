//! What the generator's script is to a desk: its lines, and that each PIE it hands in is admitted (docs/SERVICE.md).
#![tactic(auto)]

mod laws;

pub use laws::{made_lines_are_admitted, made_script_is_script};
