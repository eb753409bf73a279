//! What an explanation needs to know of a block's operations.
use crate::delays::Delays;
use iloc_rules::Pair;

/// What is known of a block's renamed operations by a rule of memory.
#[derive(Drop)]
pub struct Measures<'a> {
    /// Which delays they put on one another.
    pub delays: Delays<'a>,
    /// Delay pairs of the operations: rows that wait for these wait for all.
    pub pairs: Vec<Pair>,
    /// By operation the number that ranks it.
    pub ranks: Vec<u32>,
    /// By operation the longest chain of delays from it, up to the end of the block.
    pub chains: Vec<u32>,
    /// By operation the first cycle at which it can be issued.
    pub starts: Vec<u32>,
    /// A lower bound on the cycles.
    pub least: u64,
}
