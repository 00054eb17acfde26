//! The script of a desk's clients, and the transcript of what happened at the desk (docs/SERVICE.md).
#![tactic(auto)]

mod ahead;
mod batches;
mod entries;
mod fields;
mod kinds;
mod laws;
pub mod limits;
mod line;
mod lines;
mod numbers;
mod script;
mod transcripts;
mod verb;

pub use kinds::{ScriptKind, ScriptRefusal};
pub use laws::{one_script, one_script_refusal, own_lines_laws, script_is_not_refused};
pub use line::{Line, Script};
pub use script::{read_script, read_script_by_threads};
pub use transcripts::transcript;
