//! Worked examples of the commands, with their streams and statuses, with values from standards, from the pages of `docs/` or from
//! other programs. They stand apart since a crate with a test is proved twice in a gate.
#![tactic(auto)]

#[cfg(test)]
mod asking;
#[cfg(test)]
mod boot;
#[cfg(test)]
mod check;
#[cfg(test)]
mod exits;
#[cfg(test)]
mod hostile;
#[cfg(test)]
mod list;
#[cfg(test)]
mod replay;
#[cfg(test)]
mod roomy;
#[cfg(test)]
mod run;
#[cfg(test)]
mod scripts;
#[cfg(test)]
mod streams;
