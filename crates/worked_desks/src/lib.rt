//! Worked examples of the registry, the desk and its scripts, with values from standards, from the pages of `docs/` or from
//! other programs. They stand apart since a crate with a test is proved twice in a gate.
#![tactic(auto)]

#[cfg(test)]
mod desk;
#[cfg(test)]
mod registry;
#[cfg(test)]
mod scripts;
