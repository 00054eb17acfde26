use crate::work_end::WorkEnd;

/// How one round of a worker at a shared desk ends.
#[derive(Debug, Drop)]
pub enum SharedRound {
    /// A batch was registered or sealed.
    Went,
    /// No batch is sealed and no job waits, and whether the desk is closed.
    Idle(bool),
    Ended(WorkEnd),
}
