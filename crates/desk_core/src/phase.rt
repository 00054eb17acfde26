/// Where a batch stands. `NoBatch` is the phase of a number without a batch.
#[derive(Clone, Copy, Debug, PartialEq, Eq, Drop)]
pub enum Phase {
    Sealed,
    /// With the number of the pass that took it.
    Taken(u32),
    Registered,
    NoBatch,
}

/// Where a job stands. `Unknown` is the phase of a number without a job.
#[derive(Clone, Copy, Debug, PartialEq, Eq, Drop)]
pub enum JobPhase {
    Waiting,
    Sealed,
    Taken,
    Registered,
    Unknown,
}
