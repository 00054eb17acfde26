//! Cutting a batch from the PIEs that wait, and laying it out in the field's memory (docs/BOOTLOADER.md).
#![tactic(auto)]

mod bases;
mod batch_layout;
mod cutting;
mod laws;
pub mod lengths;
mod parts;
mod planning;

pub use batch_layout::BatchLayout;
pub use cutting::cut;
pub use laws::{plans_by_hand, plans_hold};
pub use planning::plan;
