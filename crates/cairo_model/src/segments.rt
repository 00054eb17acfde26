//! The segments of a PIE that have a number of their own (docs/PIE.md), and the builtins that they belong to.

/// The words of the program.
pub const PROGRAM: u16 = 0;

/// The stack of the run.
pub const EXECUTION: u16 = 1;

/// What the run gives.
pub const OUTPUT: u16 = 2;

/// The range cells.
pub const RANGE: u16 = 3;

/// The hash instances.
pub const HASH: u16 = 4;

/// Empty: its start is the caller's frame pointer.
pub const RETURN_FP: u16 = 5;

/// Empty: its start is the return address.
pub const RETURN_PC: u16 = 6;

/// The builtins of a program, a bit each: 1 output, 2 range, 4 hash. Every program may use all three.
pub const BUILTIN_MASK: u64 = 7;

/// The segments of the builtins, in the order of the stop pointers.
pub const BUILTINS: [u16; 3] = [OUTPUT, RANGE, HASH];

/// The segments whose starts stand in a run's frame, in order.
pub const FRAME: [u16; 5] = [OUTPUT, RANGE, HASH, RETURN_FP, RETURN_PC];
