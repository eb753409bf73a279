//! Results on their way to where they are written.
ghost use Rattle.std.specs.Prelude.{◌≡◌, ◌%◌, ◌++◌, ◌∷◌, [], ℕ, length, replicate, slice_set, All, IfOk, OnOk};
ghost use Rattle.iloc_timed.specs.Limits.{LONGEST_LATENCY};
ghost use Rattle.iloc_timed.specs.Wheel.{list_at};

use crate::latencies::LONGEST_LATENCY;
use iloc_ops::{NoMemory, Reg};
use std::alloc::Global;
use std::marker::Model;

/// A result on its way.
#[derive(Clone, Copy, Debug, PartialEq, Eq)]
pub(crate) enum Pending {
    /// To a register.
    Register { register: Reg, value: i32 },
    /// To the word at a good address.
    Word { address: u32, word: i32 },
}

/// What a wheel can hold.
pub trait Lands {
    // It may be written where it goes.
    ghost can_land: { Self → Type 0 };
}

impl Lands for Pending {
    ghost use Rattle.iloc_timed.specs.Steps.Pending.{CanLand};

    ghost can_land = { CanLand };
}

/// How many cycles a result may be under way.
pub const LONGEST: usize = LONGEST_LATENCY as usize;

/// The results under way, in order of issue, by the cycle at which they are due, modulo the longest latency.
#[derive(Drop)]
pub struct Wheel<T: Lands> {
    lists: Vec<Vec<T>>,
}

impl<T: Lands> Model for Wheel<T> {
    ghost use Rattle.std.specs.Prelude.{◌≡◌, List, map, vec_len};
    ghost use Rattle.std.specs.List.{All};
    ghost use Rattle.iloc_timed.specs.Limits.{LONGEST_LATENCY};

    ghost Value = { List (List T) };

    ghost view = { λ wheel. map (λ list. list.items) wheel.lists.items };

    ghost invariant = { λ wheel. (vec_len wheel.lists ≡ LONGEST_LATENCY) × All (λ list. All T.can_land list.items) wheel.lists.items };
}

impl<T: Lands + Drop> Wheel<T> {
    /// Promise: a wheel with nothing under way.
    pub fn new(alloc: Global) -> Result<Wheel<T>, NoMemory>
        ensures { IfOk result (λ wheel. wheel ≡ replicate LONGEST_LATENCY []) }
    {
        let mut lists = Vec::with_capacity(alloc, LONGEST)?;
        for _ in 0..LONGEST {
            lists.push(Vec::new(alloc))?;
        }
        Ok(Wheel { lists })
    }

    /// Promise: lends what is due at a cycle, in order of issue.
    pub fn due(&self, cycle: usize) -> &[T]
        ensures due { result.now ≡ list_at self.now cycle }
        ensures can_land { All T.can_land result.now }
    {
        self.lists[cycle % LONGEST].as_slice()
    }

    /// Promise: adds `pending`, a result that is due at `cycle`, after the ones that are due then already.
    pub fn push(&mut self, cycle: usize, pending: T) -> Result<(), NoMemory>
        requires { T.can_land pending }
        ensures { OnOk result (self.new ≡ slice_set self.old (cycle % LONGEST_LATENCY) (list_at self.old cycle ++ pending ∷ [])) }
    {
        self.lists[cycle % LONGEST].push(pending)?;
        Ok(())
    }

    /// Promise: removes what is due at a cycle, and nothing else.
    pub fn clear(&mut self, cycle: usize)
        ensures { self.new ≡ slice_set self.old (cycle % LONGEST_LATENCY) [] }
    {
        self.lists[cycle % LONGEST].clear();
    }

    /// Promise: removes everything.
    pub fn clear_all(&mut self)
        ensures count { length self.new ≡ LONGEST_LATENCY }
        ensures empty { (cycle : ℕ) → list_at self.new cycle ≡ [] }
    {
        // By a constant, so no branch ends the loop: that saves `simulate` 0.1 mispredicted branches for each operation of a block
        // of ten, and 1.2 % of its instructions.
        prove_eq!(self.lists.len(), LONGEST);
        for cycle in 0..LONGEST {
            self.clear(cycle);
        }
    }
}
