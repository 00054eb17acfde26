use crate::phase::Phase;
use boot_program::Certified;

/// How a registration ended. What isn't registered comes back.
#[derive(Debug, Drop)]
pub enum RegisterEnd {
    Done,
    /// Where the batch stands instead of being taken by this pass.
    NotTaken(Phase, Certified),
    /// The least index at which the parcel isn't the batch's.
    Stranger(u32, Certified),
    OutOfMemory(Certified),
}
