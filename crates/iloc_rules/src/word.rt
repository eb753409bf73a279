//! What is known of a word before a block runs.

/// What is known of a word in a register, whatever memory the block starts with.
#[derive(Clone, Copy, Debug, PartialEq, Eq)]
pub enum Word {
    /// It is this word.
    Known(i32),
    /// It is the result of the operation with this number and this constant together, wrapped to 32 bits.
    Based(u32, i32),
}
