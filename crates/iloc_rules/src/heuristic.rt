//! What ranks the ready operations.

/// What ranks the ready operations: the one with the greatest priority goes first; ties go to the lower number.
#[derive(Clone, Copy, Debug, PartialEq, Eq)]
pub enum Heuristic {
    /// The longest chain of delays that begins with the operation.
    Chain,
    /// The longest chain of delays through the operation: the longer it is, the less slack is left.
    Slack,
    /// How many operations have to wait for the operation, themselves or by way of others.
    Descendants,
    /// How many operations have to wait for the operation themselves.
    Successors,
    /// The operation's own latency.
    Latency,
    /// Nothing, so the order of the block decides.
    Order,
}

/// How many heuristics there are.
pub const HEURISTIC_COUNT: usize = 6;

/// The heuristics, in the order in which they are listed.
pub const HEURISTICS: [Heuristic; HEURISTIC_COUNT] = [
    Heuristic::Chain,
    Heuristic::Slack,
    Heuristic::Descendants,
    Heuristic::Successors,
    Heuristic::Latency,
    Heuristic::Order,
];
