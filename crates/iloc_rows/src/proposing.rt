//! What schedule lines have proposed so far.
ghost use Rattle.std.specs.Prelude.{◌≤◌, vec_len};

use crate::proposal::Proposed;

/// What the lines so far propose for some blocks.
#[derive(Drop)]
pub struct Proposing {
    /// For each block.
    pub proposals: Vec<Proposed>,
    /// The number of the block of which something was said last, 0 if there is none.
    pub last: u32,
    ghost within: { last ≤ vec_len proposals },
}
