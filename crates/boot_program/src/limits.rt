//! The limits of a batch (docs/BOOTLOADER.md), each as `specs/Batch/Limits.antt` has it.

/// The most tasks of a batch.
pub const MOST_BATCH_TASKS: usize = 16;

/// The most steps that the tasks of a batch have together: four of the longest runs.
pub const MOST_BATCH_STEPS: u64 = 262_144;

/// The most cells that the tasks of a batch have room for together: four of the largest PIEs.
pub const MOST_BATCH_CELLS: u64 = 262_144;

/// The most words of the bootloader: each certificate of a batch holds them all.
pub const MOST_BOOT_WORDS: usize = 1_024;
