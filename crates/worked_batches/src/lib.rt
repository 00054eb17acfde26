//! Worked examples of plans, bootloader runs and checked certificates, with values from standards, from the pages of `docs/` or from
//! other programs. They stand apart since a crate with a test is proved twice in a gate.
#![tactic(auto)]

#[cfg(test)]
mod batches;
#[cfg(test)]
mod checking;
#[cfg(test)]
mod plans;
