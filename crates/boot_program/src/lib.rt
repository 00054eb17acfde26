//! The bootloader: its words, what a run through them tells of the memory, and what a batch's certificate owes.
#![tactic(auto)]

mod certified;
mod laws;
pub mod limits;
mod parcel;
mod run_fault;
mod words;

pub use certified::Certified;
pub use laws::{
    batch_runs, boot_constants, boot_is_listed, frame_holds, headers_are_true, one_task_a_row,
    return_tells, row_law, rows_law, span_has_instances, stretch_laws, turn_runs, turn_tells,
};
pub use parcel::Parcel;
pub use run_fault::{RowCause, RunFault};
pub use words::{BOOT, BOOT_CALLS, BOOT_END, BOOT_ENTRY, boot_words};
