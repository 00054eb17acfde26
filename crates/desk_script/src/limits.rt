//! The limits of a script (docs/SERVICE.md), each as `specs/Limits.antt` has it.

/// The most lines of a script.
pub const MOST_LINES: usize = 65_536;

/// The numbers of jobs that a script names are below this one.
pub const JOB_LIMIT: u64 = 4_294_967_296;
