//! One desk that many threads use, each by a pass of its own.
#![tactic(auto)]

mod asking;
mod closing;
mod held;
mod laws;
mod looking;
mod offering;
mod registering;
mod returning;
mod sealing;
mod shared;
mod submitting;
mod taking;

pub use held::Held;
pub use laws::one_offer;
pub use offering::offer_of;
pub use shared::SharedDesk;
