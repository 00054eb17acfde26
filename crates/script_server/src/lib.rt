//! Serves a script by threads at one shared desk: a thread for each client, which does that client's lines by its own pass, and one
//! for each worker. When the clients have ended, the caller's pass closes the desk; when all have ended, it makes what batches are left.
#![tactic(auto)]

mod clients;
mod closing;
mod held;
mod joining;
pub mod limits;
mod lines;
mod passes;
mod serving;
mod sharing;
mod starting;
mod workers;

pub use serving::serve_script;
