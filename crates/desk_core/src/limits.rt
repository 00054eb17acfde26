//! The limits of a desk and of each client (docs/SERVICE.md), each as `specs/Limits.antt` has it.

/// The most clients of a desk.
pub const MOST_CLIENTS: u32 = 16;

/// The most PIEs that a client may have admitted: four full batches.
pub const MOST_CLIENT_PIES: u64 = 64;

/// The most steps that a client's admitted PIEs have together: as many as one batch may have.
pub const MOST_CLIENT_STEPS: u64 = 262_144;

/// The most cells that a client's admitted PIEs have room for together: as many as one batch may have.
pub const MOST_CLIENT_CELLS: u64 = 262_144;
