//! Worked examples of PIE files, their replay, and certificates, with values from standards, from the pages of `docs/` or from
//! other programs. They stand apart since a crate with a test is proved twice in a gate.
#![tactic(auto)]

#[cfg(test)]
mod certificates;
#[cfg(test)]
mod pie_files;
#[cfg(test)]
mod placing;
#[cfg(test)]
mod replays;
