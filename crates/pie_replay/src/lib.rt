//! Replaying position-independent executions.
#![tactic(auto)]

mod acceptance;
mod admission;
mod builtins;
mod convention;
mod ending;
mod laws;
mod runs;
mod segments;
mod transitions;
mod value_step;

pub use acceptance::replay;
pub use admission::admit;
pub use laws::{accepted_has_no_cause, one_first_replay_cause, one_verdict};
pub use transitions::{following_pc, next_state, result_in};
pub use value_step::{in_register, spelled_by, step_value};
