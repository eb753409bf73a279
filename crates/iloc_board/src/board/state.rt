//! What a worker is about.

/// What a worker is about. Jobs go by their numbers.
#[derive(Clone, Copy, PartialEq, Eq)]
pub enum State {
    /// It has no job in view.
    Free,
    /// It saw that this job is next, and may try to take it.
    Looked(u32),
    /// It took this job, and owes its answer.
    Holding(u32),
}
