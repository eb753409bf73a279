//! Runs of schedules on the timed machine, one after another on one memory.
ghost use Rattle.std.specs.Prelude.{◌≡◌, [], IfOk, OnOk};
ghost use Rattle.std.specs.Option.{option_copied};
ghost use Rattle.iloc_meaning.specs.Outcome.{shown};
ghost use Rattle.iloc_timed.specs.Timed.{timed_outcome};

use crate::latencies::Latencies;
use crate::machine::Machine;
use crate::schedule::Schedule;
use crate::timing::fill_latencies;
use iloc_meaning::{Memory, Outcome};
use iloc_ops::NoMemory;
use std::alloc::Global;
use std::marker::Model;

/// Runs schedules on the timed machine, one after another, each with all registers 0 and the memory that was first
/// passed in. It holds that memory and no copy: what a schedule wrote is undone before the next one runs.
#[derive(Drop)]
pub struct Simulator {
    machine: Machine,
    /// The latencies of the last schedule's operations.
    own: Vec<u32>,
}

impl Model for Simulator {
    ghost use Rattle.iloc_meaning.specs.Outcome.{Runs};
    ghost use Rattle.iloc_meaning.specs.MachineState.{leaves};

    ghost Value = { Runs };

    ghost view = { λ s. record { memory = s.machine.state.memory.first; last = leaves s.machine.state.finished s.machine.state } };
}

impl Simulator {
    /// Promise: a simulator whose schedules all start with this memory; until the first one runs, its outcome is that of
    /// a schedule without operations.
    pub fn new(alloc: Global, memory: Memory) -> Result<Simulator, NoMemory>
        ensures { IfOk result (λ it. it ≡ record { memory = memory; last = Outcome.Finished [] memory }) }
    {
        Ok(Simulator {
            machine: Machine::new(alloc, memory)?,
            own: Vec::new(alloc),
        })
    }

    /// Promise: runs a schedule, whose outcome is then that of `run_schedule` on the first memory, whatever ran before.
    ///
    /// After a refusal of memory the outcome is unspecified, and the next schedule runs as after any other.
    pub fn run(&mut self, schedule: &Schedule, latencies: &Latencies) -> Result<(), NoMemory>
        ensures memory { self.new.memory ≡ self.old.memory }
        ensures outcome { OnOk result (self.new.last
            ≡ timed_outcome latencies.now schedule.now.ops schedule.now.rows self.old.memory) }
    {
        fill_latencies(&mut self.own, schedule.ops(), latencies)?;
        self.machine.run(schedule, &self.own)
    }

    /// Promise: the words that the last schedule emitted, in order, or `None` if it faulted.
    pub fn outputs(&self) -> Option<&[i32]>
        ensures { option_copied result ≡ shown self.now.last }
    {
        self.machine.state.outputs()
    }

    /// Promise: the outcome of the last schedule.
    pub fn into_outcome(self) -> Outcome
        ensures { result ≡ self.last }
    {
        self.machine.state.into_outcome()
    }
}
