//! Worked examples of scripts that threads serve. They stand apart since a crate with a test is proved twice in a gate.
#![tactic(auto)]

#[cfg(test)]
mod asking;
#[cfg(test)]
mod gates;
#[cfg(test)]
mod serving;
