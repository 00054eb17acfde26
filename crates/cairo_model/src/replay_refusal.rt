use crate::fault::StepFault;
use crate::value::Value;

/// Why a PIE is not accepted alone: the first of these that applies, in this order (docs/PIE.md). Offsets are in cells.
#[derive(Clone, Copy, Debug, PartialEq, Eq, Drop)]
pub enum ReplayRefusal {
    /// The program segment has no number at this offset, the least such one.
    ProgramCell(u32),
    /// The program begins at this offset, outside of its segment.
    BadMain(u64),
    /// The frame's cell of this index, the least such one, is another.
    BadFrame(u32),
    /// The output segment has no number at this offset, the least such one.
    OutputCell(u32),
    /// The range segment has no range cell at this offset, the least such one.
    RangeCell(u32),
    /// The hash segment has no whole instance of this index, the least such one.
    HashInstance(u32),
    /// The step of this number, counted from 0, is the first that fails, with this fault.
    Step(u32, StepFault),
    /// The last state has this program counter, which isn't the return address.
    NotHome(Value),
    /// The last state has this frame pointer, which isn't the caller's.
    WrongFrame(Value),
    /// The stop pointer of this index, the least such one, is another.
    StopPointer(u32),
}
