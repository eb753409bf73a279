//! How much a text may hold.

/// The greatest length of a text, in bytes.
pub const MAX_INPUT: usize = 16_777_216;

/// The greatest number of blocks in a file.
pub const MAX_BLOCKS: usize = 65_535;

/// The greatest number of operations in a block.
pub const MAX_OPS: usize = 10_000;

/// The greatest number that a text may have.
pub const MAX_NUMBER: u32 = 2_147_483_647;
