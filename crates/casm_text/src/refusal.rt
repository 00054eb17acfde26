use thiserror::Error;

/// Why a text is refused: the first of these that applies, in this order, with the least line that it applies to
/// (docs/ASSEMBLY.md). Lines count from 1.
#[derive(Clone, Copy, Debug, PartialEq, Eq, Drop, Error)]
pub enum AsmRefusal {
    /// The line is neither empty nor a label nor a statement, whatever the size of its numbers and offsets.
    #[error("line {0} is neither empty nor a label nor a statement")]
    Syntax(u32),
    /// The line names a label that no line sets, or sets a label that a line before it sets.
    #[error("line {0} names a label that is not set, or sets one that is set before")]
    Label(u32),
    /// The line has a number or an offset out of range, or gives the word after the 65,536th.
    #[error("line {0} has a number or an offset out of range, or a word too many")]
    Range(u32),
}
