//! The run of a batch: for all tasks within the limits of a batch, a certificate that is accepted and has each task's run.
#![tactic(auto)]

mod boot_maker;
mod code;
mod laws;
mod maker;
mod memory;
mod parts;
mod pieces;
mod place;
mod placed;
mod placing;
mod rows;
mod turns;
mod values;

pub use boot_maker::BootMaker;
pub use laws::{
    batch_cells_rise, batch_is_small, batch_is_spelled, batches_are_accepted, cells_run,
    plans_are_followed, tasks_in_order, tasks_stand_in,
};
pub use maker::Maker;
