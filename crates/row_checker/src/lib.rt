//! Checking certificates: the first fault of one by itself, or of one with the parcel that it should be of.
#![tactic(auto)]

mod boot;
mod certifying;
mod checking;
mod chunks;
mod frame;
mod laws;
mod outputs;
mod rows;
mod spans;
mod tasks;

pub use certifying::certify;
pub use checking::check_run;
pub use chunks::CHUNKS;
pub use laws::{
    accepted_has_no_fault, certified_has_no_fault, one_first_batch_fault, one_first_run_fault,
};
