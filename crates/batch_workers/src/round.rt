use crate::work_end::WorkEnd;

/// How one round of a worker ends.
#[derive(Debug, Drop)]
pub enum Round {
    /// A batch was registered or sealed.
    Went,
    /// No batch is sealed and no job waits.
    Idle,
    Ended(WorkEnd),
}
