//! One step of the machine over the field, and whether two states are one, by the step and by equations.
#![tactic(auto)]

mod field_step;
mod laws;
mod row;
mod split;

pub use field_step::step;
pub use laws::equations_are_steps;
pub use row::row_holds;
