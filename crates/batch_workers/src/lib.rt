//! Workers: whoever takes sealed batches, has their certificates made, and registers them, at a desk of its own or at a shared one.
#![tactic(auto)]

mod bell;
mod gate;
mod open_gate;
mod point;
mod round;
mod shared_round;
mod shared_rounds;
mod shared_working;
mod work_end;
mod working;

pub use bell::Bell;
pub use gate::Gate;
pub use open_gate::OpenGate;
pub use point::Point;
pub use shared_working::{work, work_idle};
pub use work_end::WorkEnd;
pub use working::work_plain;
