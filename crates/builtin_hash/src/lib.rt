//! The hash builtin over SHA-256 (FIPS 180-4), the chain of a list of numbers, and the program hash.
#![tactic(auto)]

mod chains;
mod instances;
pub mod laws;
mod programs;

pub use crate::chains::chain;
pub use crate::instances::{CELLS_PER_INSTANCE, check_instance, instance};
pub use crate::programs::{HASH_DIGITS, ProgramHash, program_hash};
