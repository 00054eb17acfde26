//! The limits of the numbers among the words, each as `specs/Limits.antt` has it.

/// The most digits of a number among the words.
pub const MOST_DIGITS: usize = 10;

/// The fewest jobs that a script is made of.
pub const LEAST_JOBS: u32 = 1;

/// The fewest clients of a desk.
pub const LEAST_CLIENTS: u32 = 1;

/// The fewest workers of a desk that is served by threads.
pub const LEAST_WORKERS: u32 = 1;

/// The least number of a batch that may be asked for.
pub const LEAST_BATCH: u32 = 0;

/// The greatest number of a batch that may be asked for.
pub const MOST_BATCH: u32 = 4_294_967_295;
