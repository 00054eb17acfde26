//! Write-once memory by segments: a cell takes a value once, and keeps it.
#![tactic(auto)]

mod filling;
mod listing;
mod memory;
mod put_fault;
mod segment;

pub use memory::SegMemory;
pub use put_fault::PutFault;
