//! Operations in rows, and those that are left out or added.

use iloc_ops::Op;

/// An operation in a row.
#[derive(Clone, Copy, Debug, PartialEq, Eq)]
pub struct Issue {
    /// The cycle of its row.
    pub cycle: usize,
    /// The operation.
    pub op: Op,
}

/// Operations of a block that have no counterpart in the rows.
#[derive(Clone, Copy, Debug, PartialEq, Eq)]
pub struct LeftOut {
    /// How many there are, counted without registers.
    pub count: usize,
    /// One of which the rows have too few, as the block has it.
    pub op: Op,
}

/// Operations of rows that have no counterpart in the block.
#[derive(Clone, Copy, Debug, PartialEq, Eq)]
pub struct Added {
    /// How many there are, counted without registers.
    pub count: usize,
    /// One of which the rows have too many.
    pub issue: Issue,
}
