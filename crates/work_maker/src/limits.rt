//! The numbers of the generator, each as `specs/Limits.antt` has it.

/// The most jobs of a script.
pub const MOST_JOBS: u32 = 256;

/// The clients of a script, who take turns.
pub const CLIENTS: u32 = 4;

/// After so many jobs the last of them is asked about.
pub const JOBS_TO_A_STATUS: u32 = 8;

/// The rounds of the jobs are scattered from 1 up to this number.
pub const MOST_ROUNDS: u32 = 500;

/// What scatters the rounds: a job's number is multiplied by this one.
pub const ROUNDS_FACTOR: u32 = 7919;

/// What is added to that product.
pub const ROUNDS_SHIFT: u32 = 13;

/// The steps of one round of the countdown.
pub const ROUND_STEPS: u32 = 4;

/// The steps of a countdown before its rounds and after them.
pub const OTHER_STEPS: u32 = 8;
