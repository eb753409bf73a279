//! Operations by their ranks: their places in the order of choice.
ghost use Rattle.std.specs.Prelude.{◌≤◌, length, OnOk};

use crate::cycle::counting::{Counting, lengthen};
use crate::cycle::keys::{place_by_keys, sort_keys};
use iloc_ops::{MAX_OPS, NoMemory};
use std::alloc::Global;

/// Priorities are counted if all are below `COUNTED` times the number of operations, else sorted: counting takes 17 to 30
/// instructions for an operation, sorting 65 to 155 and at least half a mispredicted branch more.
const COUNTED: usize = 16;

/// The operations by rank, and the rank of each. Lists only grow, so numbers of longer blocks may follow: to fill them with
/// zeros for each block takes 0.25 mispredicted branches and 8 instructions for each operation of a block of ten.
#[derive(Drop)]
pub struct Order {
    pub by_rank: Vec<u32>,
    pub ranks: Vec<u32>,
    counting: Counting,
    keys: Vec<u64>,
}

impl Order {
    ghost use Rattle.iloc_sched.specs.Steps.Cycle.Order.{AreRanks};

    /// No operation.
    pub fn new(alloc: Global) -> Order {
        Order {
            by_rank: Vec::new(alloc),
            ranks: Vec::new(alloc),
            counting: Counting::new(alloc),
            keys: Vec::new(alloc),
        }
    }

    /// Ranks operations by falling priority, then by number.
    pub fn fill(&mut self, priorities: &[u32]) -> Result<(), NoMemory>
        requires { length priorities.now ≤ MAX_OPS }
        ensures { OnOk result (AreRanks priorities.now self.new.by_rank.items self.new.ranks.items) }
    {
        let count = priorities.len();
        lengthen(&mut self.by_rank, count)?;
        lengthen(&mut self.ranks, count)?;
        if self.counting.place(
            &mut self.by_rank,
            &mut self.ranks,
            priorities,
            COUNTED * count,
        )? {
            return Ok(());
        }
        sort_keys(&mut self.keys, priorities)?;
        place_by_keys(&mut self.by_rank, &mut self.ranks, priorities, &self.keys);
        Ok(())
    }
}
