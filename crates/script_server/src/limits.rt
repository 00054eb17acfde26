//! The limit of workers, as `specs/Limits.antt` has it.

/// The most workers that serve a script.
pub const MOST_WORKERS: u32 = 8;
