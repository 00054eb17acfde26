//! Worked examples of assembly texts, listings, the bootloader's text, runs of texts and generated scripts, with values from standards, from the pages of `docs/` or from
//! other programs. They stand apart since a crate with a test is proved twice in a gate.
#![tactic(auto)]

#[cfg(test)]
mod assembly;
#[cfg(test)]
mod boot_text;
#[cfg(test)]
mod bootloader;
#[cfg(test)]
mod generated;
#[cfg(test)]
mod listings;
#[cfg(test)]
mod runs;
