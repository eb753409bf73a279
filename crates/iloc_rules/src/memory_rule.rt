//! Which operations wait for each other by memory.

/// By what operations wait for each other by memory.
#[derive(Clone, Copy, Debug, PartialEq, Eq)]
pub enum MemoryRule {
    /// By the book: a load or an output waits for each store before it, and a store for each load, output and store.
    Book,
    /// By address: the same, but for loads and outputs and stores whose addresses are known to differ. Stores keep their order.
    Address,
}
