//! Reading and writing the files of position-independent executions (docs/PIE.md).
#![tactic(auto)]

mod cell_reading;
mod file_parts;
mod laws;
mod metadata;
mod metadata_rules;
mod metadata_writing;
mod reading;
mod writing;

pub use laws::{file_or_cause, one_first_read_cause, one_pie, pie_has_no_cause};
pub use reading::read;
pub use writing::write;
