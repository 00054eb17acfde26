//! How many cells the bootloader takes for a batch and for each task (docs/BOOTLOADER.md, 'The memory').

use builtin_hash::CELLS_PER_INSTANCE;

/// The frame of the batch.
pub const BATCH_FRAME: u64 = 5;

/// The state of the loop over tasks: how many are left, and three pointers.
pub const LOOP_STATE: u64 = 4;

/// What a call puts.
pub const CALL: u64 = 2;

/// The frame of a task.
pub const TASK_FRAME: u64 = 21;

/// A turn of the loop over hash instances.
pub const HASH_TURN: u64 = 15;

/// The words that such a turn hashes.
pub const WORDS_PER_TURN: u64 = 4;

/// What stands between the last of these turns and the task's call.
pub const HEADER_COPY: u64 = 11;

/// The zeros behind a program.
pub const ZEROS: u64 = 3;

/// A header in the output.
pub const HEADER: u64 = 9;

/// A hash instance.
pub const INSTANCE: u64 = CELLS_PER_INSTANCE as u64;

/// The address to which the bootloader's call of a task returns.
pub const RETURN_ADDRESS: u64 = 106;
