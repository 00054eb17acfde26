use crate::status::Status;
use desk_core::Desk;

/// How a run of a top call ended, and the desk at which it ran a script, if it did.
#[derive(Drop)]
pub struct Ended {
    pub status: Status,
    pub desk: Option<Desk>,
}
