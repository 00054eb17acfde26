use thiserror::Error;

/// Why bytes are no certificate's: the first of these that applies, in this order (docs/CERTIFICATE.md). Lengths and
/// places are in bytes, and places count from 0 at the file's first byte.
#[derive(Clone, Copy, Debug, PartialEq, Eq, Drop, Error)]
pub enum CertRefusal {
    /// One of the first eight bytes that are there is another.
    #[error("the file does not begin as a certificate does")]
    BadMagic,
    /// The file ends, at this length, before a part that the parts before it announce.
    #[error("the file ends early, after {0} bytes")]
    Truncated(u64),
    /// The first kind above 1, number of tasks that isn't 0 for a PIE alone, or number at or above the prime.
    #[error("the number at byte {0} is out of range")]
    BadNumber(u64),
    /// The first stop below its start, or address that isn't above the one before.
    #[error("the number at byte {0} is out of order")]
    Order(u64),
    /// So many bytes follow the last state.
    #[error("{0} bytes follow the certificate")]
    Trailing(u64),
}
