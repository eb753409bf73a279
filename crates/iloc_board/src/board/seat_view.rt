//! What the holder of a seat at the board's table knows. It is in proofs alone: no value of it is made.
use crate::step::Journal;
use std::collections::LinkedList;

/// Whose seat it is.
pub enum Role {
    /// The board's root.
    Root,
    /// A pass.
    Pass,
    /// Nobody's any more: its pass was gathered.
    Spent,
}

/// What a seat knows. A root has `made` and `gathered`, a pass has its `journal`.
pub struct SeatView {
    pub role: Role,
    /// How many jobs the board has.
    pub count: u32,
    /// How many passes were made.
    pub made: u32,
    /// The journals of the passes that were gathered.
    pub gathered: LinkedList<Journal>,
    pub journal: Journal,
}
