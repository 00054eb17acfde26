//! Worked examples of a shared desk and of the workers at it. They stand apart since a crate with a test is proved twice in a gate.
#![tactic(auto)]

#[cfg(test)]
mod asker;
#[cfg(test)]
mod desks;
#[cfg(test)]
mod gates;
#[cfg(test)]
mod makers;
#[cfg(test)]
mod passes;
