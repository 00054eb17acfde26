//! Placing a run in the field's memory (docs/CERTIFICATE.md, 'Placing').
#![tactic(auto)]

mod laws;
mod lists;
mod lone_certificate;
mod lone_layout;
mod relocating;
mod sorting;
mod values;

pub use laws::{keeps_arithmetic, keeps_runs, keeps_steps, runs_anywhere};
pub use lone_certificate::{lone_cert, lone_certificates_hold, one_lone_certificate};
pub use lone_layout::{alone, lone_layout_fits};
pub use relocating::{Placed, relocate};
pub use values::relocate_value;
