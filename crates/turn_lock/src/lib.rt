//! A lock whose threads take turns by tickets, with one history of all turns.
#![tactic(auto)]

mod bells;
mod kept;
mod lock;
mod pass;
mod plays;
#[cfg(test)]
mod tests;
mod turn;
mod view;

pub use kept::{Change, Kept};
pub use lock::TurnLock;
pub use pass::Pass;
