/// The most bytes of any input.
pub const INPUT_LIMIT: usize = 201_326_592;

/// The bytes that one read has room for.
pub const READ_BYTES: usize = 65_536;

/// How often a call that a signal interrupted is tried.
pub const TRIES: u32 = 65_536;
