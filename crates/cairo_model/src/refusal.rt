use crate::read_refusal::ReadRefusal;
use crate::replay_refusal::ReplayRefusal;

/// Why the bytes of a file are not admitted: they are no PIE's, or no isolated run accepts the PIE (docs/PIE.md).
#[derive(Clone, Copy, Debug, PartialEq, Eq, Drop)]
pub enum Refusal {
    Read(ReadRefusal),
    Replay(ReplayRefusal),
}
