//! Rows in mid-run: which results registers hold, and which are under way.
ghost use Rattle.std.specs.Prelude.{◌≡◌, ◌+◌, ◌<◌, ◌≤◌, ◌∷◌, ℕ, List, [], fold, length, OnOk, IfOk, IfSome};
ghost use Rattle.iloc_ops.specs.declared.op.Reg.{Reg as Register};
ghost use Rattle.iloc_timed.specs.Latency.{latency};
ghost use Rattle.iloc_timed.specs.Timed.{Issued};
ghost use Rattle.iloc_facts.specs.Steps.Tracks.Holders.{holder};
ghost use Rattle.iloc_facts.specs.Steps.Tracks.Arrivals.{landed_at, with_slot, marked};

use crate::reading::holders::Holders;
use iloc_ops::{NoMemory, Op, Reg, defines};
use iloc_timed::{Lands, Latencies, MAX_ROWS, Wheel, latency};
use std::alloc::Global;

/// A result on its way to a register.
#[derive(Clone, Copy)]
pub(crate) struct Arrival {
    pub register: Reg,
    pub op: usize,
}

impl Lands for Arrival {
    ghost use Rattle.std.specs.Prelude.{⊤};

    ghost can_land = { λ _. ⊤ };
}

/// Writes results to their registers, in order.
fn land_all(holders: &mut Holders, due: &[Arrival]) -> Result<(), NoMemory>
    ensures { OnOk result ((r : Register) → holder holders.new r ≡ fold (landed_at r) (holder holders.old r) due.now) }
{
    for arrival in due {
        holders.set(arrival.register, arrival.op)?;
    }
    Ok(())
}

/// Rows in mid-run: what was due is written, and the rest is under way.
#[derive(Drop)]
pub(crate) struct Run {
    pub(crate) holders: Holders,
    wheel: Wheel<Arrival>,
}

impl Run {
    ghost use Rattle.iloc_facts.specs.Steps.Tracks.{Tracks};

    /// Nothing issued.
    pub(crate) fn new(alloc: Global) -> Result<Run, NoMemory>
        ensures { IfOk result (Tracks 0 []) }
    {
        Ok(Run {
            holders: Holders::none(alloc),
            wheel: Wheel::new(alloc)?,
        })
    }

    /// Writes what is due at a cycle.
    pub(crate) fn land(&mut self, cycle: usize) -> Result<(), NoMemory>
        ensures { OnOk result ((log : List Issued) → Tracks cycle log self.old → Tracks (cycle + 1) log self.new) }
    {
        land_all(&mut self.holders, self.wheel.due(cycle))?;
        self.wheel.clear(cycle);
        Ok(())
    }

    /// Sends the result of an operation, if it has one, on its way to where it is due at a cycle.
    fn send(&mut self, op: &Op, number: usize, due: usize) -> Result<(), NoMemory>
        ensures { OnOk result ((c : ℕ) (log : List Issued) → c ≤ due → due < c + 16 → Tracks c log self.old
            → Tracks c (marked due op.now number ∷ log) self.new) }
    {
        if let Some(register) = defines(op) {
            let arrival = Arrival {
                register,
                op: number,
            };
            self.wheel.push(due, arrival)?;
        }
        Ok(())
    }

    /// Issues what stands in a slot of the row of a cycle.
    pub(crate) fn issue(
        &mut self,
        ops: &[Op],
        slot: Option<usize>,
        cycle: usize,
        latencies: &Latencies,
    ) -> Result<(), NoMemory>
        requires known { IfSome slot (λ k. k < length ops.now) }
        requires early { cycle ≤ MAX_ROWS }
        ensures { OnOk result ((log : List Issued) → Tracks (cycle + 1) log self.old
            → Tracks (cycle + 1) (with_slot latencies.now ops.now cycle slot log) self.new) }
    {
        match slot {
            Some(k) => {
                let op = &ops[k];
                self.send(op, k, cycle + latency(op, latencies) as usize)
            }
            None => Ok(()),
        }
    }
}
