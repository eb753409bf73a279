//! How many blocks and operations lines make.
ghost use Rattle.std.specs.Prelude.{◌≤◌};
ghost use Rattle.iloc_ops.specs.Limits.{MAX_BLOCKS, MAX_OPS};

/// What the lines so far make, within the limits.
#[derive(Clone, Copy, Drop)]
pub struct Counts {
    /// How many blocks.
    pub blocks: usize,
    /// How many operations the last of them has.
    pub last: usize,
    /// How many operations all have.
    pub ops: usize,
    ghost few: { blocks ≤ MAX_BLOCKS },
    ghost short: { last ≤ MAX_OPS },
}
