//! The words of the program: which command they ask for. `clap` reads those after the first.
#![tactic(auto)]

mod command;
mod first_word;
mod laws;
mod limits;
mod matched;
mod number;
mod readers;
mod words;

pub use command::Command;
pub use laws::one_command;
pub use words::command_in;
