//! Jobs whose answers are small numbers.
ghost use Rattle.std.specs.Prelude.{◌≡◌, ◌+◌, ◌≤◌};

use iloc_board::{Jobs, NoMemory};
use std::alloc::Global;

/// The answer to the job i is 10 + i, at that cost.
#[derive(Drop)]
pub struct Tens {
    pub count: u32,
    pub ghost few: { count ≤ 65535 },
}

impl Jobs for Tens {
    type Answer = u32;

    ghost number = { λ t. t.count };

    ghost fits = { λ t i a. a ≡ 10 + i };

    ghost price = { λ t a. a };

    fn count(&self) -> u32 {
        self.count
    }

    fn cost(&self, answer: &u32) -> u64 {
        u64::from(*answer)
    }

    fn answer(&self, _alloc: Global, i: u32) -> Result<u32, NoMemory> {
        Ok(10 + i)
    }
}
