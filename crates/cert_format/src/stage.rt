/// Which part of a certificate comes next.
#[derive(Clone, Copy, Debug, PartialEq, Eq, Drop)]
pub(crate) enum Stage {
    /// The magic, the kind, the spans and the number of tasks.
    Front,
    /// Nothing: the magic was another.
    Foreign,
    /// The row of a task and the number of its bases. So many tasks are left with it.
    Marks(u32),
    /// A base. So many are left with it, and so many tasks behind its own.
    Bases(u32, u32),
    /// The number of cells.
    CellCount,
    /// A cell. So many are left with it.
    Cells(u32),
    /// The number of states.
    StateCount,
    /// A state. So many are left with it.
    States(u32),
    /// Nothing: the certificate ended at this place.
    End(u64),
}
