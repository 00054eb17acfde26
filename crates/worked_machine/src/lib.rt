//! Worked examples of the field, the instruction word, the builtins, the machine and its memories, with values from standards, from the pages of `docs/` or from
//! other programs. They stand apart since a crate with a test is proved twice in a gate.
#![tactic(auto)]

#[cfg(test)]
mod field;
#[cfg(test)]
mod hash;
#[cfg(test)]
mod memory;
#[cfg(test)]
mod model;
#[cfg(test)]
mod range;
#[cfg(test)]
mod steps;
#[cfg(test)]
mod texts;
#[cfg(test)]
mod word;
