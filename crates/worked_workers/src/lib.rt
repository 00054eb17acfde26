//! Worked examples of workers over honest and dishonest makers. They stand apart since a crate with a test is proved twice in a gate.
#![tactic(auto)]

#[cfg(test)]
mod changes;
#[cfg(test)]
mod workers;
