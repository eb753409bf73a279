//! What a search finds of how many cycles a block takes.

/// More nodes of a search count as so many, with which it takes at most some 250 MB.
pub const MOST_NODES: u32 = 100_000;

/// What is found of how many cycles a block takes.
#[derive(Clone, Copy, Debug, Drop, PartialEq, Eq)]
pub struct Sought {
    /// How many the best schedule takes that was found.
    pub best: u32,
    /// No lawful schedule of the block takes fewer.
    pub bound: u32,
}
