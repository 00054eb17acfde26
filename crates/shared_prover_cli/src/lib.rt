//! The top calls: the program's streams, its commands and its exit statuses.
#![tactic(auto)]

mod answers;
mod check_texts;
mod ended;
mod exits;
mod laws;
mod limits;
mod memory;
mod outputs;
mod picking;
mod picks;
mod real;
mod reply;
mod run;
mod run_texts;
mod script_texts;
mod status;
mod stream;
mod sure;
mod taker;
mod texts;
mod told;
mod whole;
mod words;

pub use ended::Ended;
pub use exits::{exit_code, explanation};
pub use laws::{no_script_refused, one_answer, run_is_admitted, script_is_run, script_is_served};
pub use memory::{MemSink, MemSource};
pub use picking::pick;
pub use picks::Pick;
pub use real::{StdSink, StdSource};
pub use run::{run_plain, run_serve};
pub use status::Status;
pub use stream::{Failed, Sink, Source};
pub use sure::{SureSink, SureSource};
pub use words::words_of;
