use cairo_model::{ReplayRefusal, StepFault, Value};

/// Why a program doesn't run to a PIE that is accepted alone (docs/RUNNER.md). Steps are counted from 0, and what is put
/// before the first one counts as step 0.
#[derive(Clone, Copy, Debug, PartialEq, Eq, Drop)]
pub enum RunRefusal {
    /// At this step a cell is absent that no rule gives.
    Unknown(u32),
    /// At this step dst holds the first value, and the result that an assertion asks of it is the second.
    Conflict(u32, Value, Value),
    /// This step has this fault.
    Fault(u32, StepFault),
    /// So many steps were done, and the run isn't home.
    StepLimit(u32),
    /// A put at this step needs more cells than a PIE may have.
    TooLarge(u32),
    /// The PIE that was made isn't accepted alone.
    Refused(ReplayRefusal),
}
