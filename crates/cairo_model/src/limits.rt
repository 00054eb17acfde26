//! The limits of a PIE (docs/PIE.md), each as `specs/Limits.antt` has it.

/// The most bytes of a file: room for all cells, and as much again for the metadata.
pub const MOST_FILE_BYTES: usize = 2_097_152;

/// The most steps of a run, so that a certificate of it alone stays below two megabytes of states.
pub const MOST_STEPS: u32 = 65_536;

/// The fewest segments: those that have a number of their own.
pub const LEAST_SEGMENTS: usize = 7;

/// The most segments: a layout is compared pair by pair.
pub const MOST_SEGMENTS: usize = 64;

/// The most cells that all segments together have room for: a replay reserves a place for each.
pub const MOST_CELLS: u32 = 65_536;

/// The offset in cells of each place is below this one, so that an address over a base of 32 bits is below the prime.
pub const OFFSET_LIMIT: u32 = 1 << 31;
