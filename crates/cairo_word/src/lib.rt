//! Words of the Cairo machine, and the instructions that they spell (Cairo whitepaper, section 4.5).
#![tactic(auto)]

mod decoding;
mod encoding;
mod word;

pub use decoding::{decode, size};
pub use encoding::{encode, fields_determine_word};
pub use word::{Instruction, Reg, WordFault};
