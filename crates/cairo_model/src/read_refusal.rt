use thiserror::Error;

/// Why bytes are no PIE file: the first of these that applies, in this order (docs/PIE.md). Lengths are in bytes.
#[derive(Clone, Copy, Debug, PartialEq, Eq, Drop, Error)]
pub enum ReadRefusal {
    /// The file has more than 2,097,152 bytes, this many.
    #[error("the file has {0} bytes, more than 2097152")]
    TooLong(u64),
    /// One of the first eight bytes that are there is another.
    #[error("the file does not begin as a PIE does")]
    BadMagic,
    /// The file ends, at this length, before a part that was announced.
    #[error("the file ends early, after {0} bytes")]
    Truncated(u64),
    /// The metadata is no JSON object of the four keys with their whole numbers.
    #[error("the metadata is not as in a PIE")]
    BadMetadata,
    /// The version is this one, and not 1.
    #[error("the version is {0}, and not 1")]
    BadVersion(u64),
    /// There are fewer than seven sizes, one is at or above 2^31, or a return segment isn't empty.
    #[error("the sizes of the segments are not as in a PIE")]
    BadSizes,
    /// There are more than 64 segments, this many.
    #[error("there are {0} segments, more than 64")]
    TooManySegments(u64),
    /// The sizes have a sum above 65,536, this one.
    #[error("the segments have {0} cells, more than 65536")]
    TooLarge(u64),
    /// There are more than 65,536 steps, this many.
    #[error("there are {0} steps, more than 65536")]
    TooManySteps(u64),
    /// The first cell that breaks a rule, by its index.
    #[error("cell {0} breaks a rule")]
    BadCell(u32),
    /// So many bytes follow the last cell.
    #[error("{0} bytes follow the last cell")]
    TrailingBytes(u64),
}
