//! What a board's jobs are.
ghost use Rattle.std.specs.Prelude.{◌≡◌, ℕ, ◌<◌, ◌≤◌, IfOk};
ghost use Rattle.iloc_board.specs.Limits.{MOST_COST, MOST_JOBS};

use crate::fault::NoMemory;
use std::alloc::Global;

/// A number of jobs, numbered from 0, each with an answer of its own. An answer has a cost.
pub trait Jobs {
    /// The answer to a job.
    type Answer: Drop;

    // How many jobs there are.
    ghost number: { Self → ℕ };

    // The answer is one to this job.
    ghost fits: { Self → ℕ → Self.Answer → Type 0 };

    // What an answer costs.
    ghost price: { Self → Self.Answer → ℕ };

    /// How many jobs there are.
    ///
    /// Promise: this is their number, at most 65,535.
    fn count(&self) -> u32
        ensures number { result ≡ number self.now }
        ensures few { result ≤ MOST_JOBS };

    /// What the answer costs.
    ///
    /// Promise: this is its price, at most 4,294,967,296.
    fn cost(&self, answer: &Self::Answer) -> u64
        ensures price { result ≡ price self.now answer.now }
        ensures small { result ≤ MOST_COST };

    /// An answer to the job `i`.
    ///
    /// Promise: the answer fits the job.
    fn answer(&self, alloc: Global, i: u32) -> Result<Self::Answer, NoMemory>
        requires { i < number self.now }
        ensures { IfOk result (λ a. fits self.now i a) };
}
