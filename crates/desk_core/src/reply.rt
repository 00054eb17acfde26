use crate::phase::{JobPhase, Phase};
use cairo_model::Refusal;

/// Which of a client's limits is exceeded, in the order in which they are asked.
#[derive(Clone, Copy, Debug, PartialEq, Eq, Drop)]
pub enum QuotaKind {
    Pies,
    Steps,
    Sizes,
}

/// What the desk replies to an event (docs/SERVICE.md, 'What each reply means').
#[derive(Clone, Copy, Debug, PartialEq, Eq, Drop)]
pub enum Reply {
    /// The PIE's number among its client's jobs.
    Admitted(u32),
    Refused(Refusal),
    Closed,
    /// The limit that would be exceeded, how much it would be with this PIE, and the limit.
    Quota(QuotaKind, u64, u64),
    /// The number of the new batch.
    SealedBatch(u32),
    /// Whether the desk is closed.
    NothingWaiting(bool),
    /// The number of the batch.
    TakenBatch(u32),
    NothingSealed,
    Registered,
    /// Where the batch stands instead.
    NotTaken(Phase),
    /// The least index at which the parcel isn't the batch's.
    Stranger(u32),
    Returned,
    Yes,
    No,
    IsAt(JobPhase),
}
