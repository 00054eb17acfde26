//! The files that the worked examples speak of, in hexadecimal.
#![tactic(auto)]

pub mod certificates;
pub mod files;
