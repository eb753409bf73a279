//! Where a worker can be held up, so that a test can bring workers together.

/// What happens between a worker's steps. Each call returns.
pub trait Gate {
    /// After a look at which this worker saw the job `k`.
    fn after_look(&self, worker: u32, k: u32);

    /// After this worker took the job `k`.
    fn after_take(&self, worker: u32, k: u32);
}

/// A gate that does nothing.
#[derive(Clone, Copy)]
pub struct FreeGate;

impl Gate for FreeGate {
    fn after_look(&self, _worker: u32, _k: u32) {}

    fn after_take(&self, _worker: u32, _k: u32) {}
}
