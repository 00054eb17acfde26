use boot_program::RunFault;

/// How a worker ends.
#[derive(Debug, Drop)]
pub enum WorkEnd {
    /// No batch is sealed and no job waits.
    Drained,
    OutOfMemory,
    /// The batch of this number got a certificate with this fault, and was given back. Never by an honest maker.
    Rejected(u32, RunFault),
}
