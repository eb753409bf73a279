//! What happens in runs of schedules, one after another on one memory.
ghost use Rattle.std.specs.Prelude.{◌≡◌, ◌++◌, IfOk, OnOk};
ghost use Rattle.iloc_trace.specs.Events.{events};
ghost use Rattle.iloc_trace.specs.Listing.{trace_lines};

use crate::machine::TracedMachine;
use iloc_meaning::Memory;
use iloc_ops::NoMemory;
use iloc_timed::{LONGEST, Latencies, Schedule};
use std::alloc::Global;
use std::marker::Model;

/// Lists what schedules do on the timed machine, one after another, each with all registers 0 and the memory that was
/// first passed in. It holds that memory and no copy: what a schedule wrote is undone before the next one runs.
#[derive(Drop)]
pub struct Tracer {
    machine: TracedMachine,
}

impl Model for Tracer {
    ghost use Rattle.std.specs.Prelude.{List, ℤ};

    ghost Value = { List ℤ };

    ghost view = { λ tracer. tracer.machine.memory.first };
}

impl Tracer {
    /// Promise: a tracer whose schedules all start with this memory.
    pub fn new(alloc: Global, memory: Memory) -> Result<Tracer, NoMemory>
        ensures { IfOk result (λ tracer. tracer ≡ memory) }
    {
        Ok(Tracer {
            machine: TracedMachine::new(alloc, memory)?,
        })
    }

    /// Promise: appends a line for each event of a schedule on the first memory, cycle by cycle, whatever ran before: the
    /// results that arrive, in order of issue, then what is issued on unit 0 and on unit 1, with what it reads. The cycle
    /// of a fault is the last one that is listed.
    ///
    /// After a refusal of memory a part may have been appended, and the next schedule runs as after any other.
    pub fn push_trace(
        &mut self,
        text: &mut Vec<u8>,
        schedule: &Schedule,
        latencies: &Latencies,
    ) -> Result<(), NoMemory>
        ensures memory { self.new ≡ self.old }
        ensures lists { OnOk result (text.new.items ≡ text.old.items
            ++ trace_lines (events latencies.now self.old schedule.now.ops schedule.now.rows)) }
    {
        self.machine.restart();
        for cycle in 0..schedule.rows().len() + LONGEST {
            if !self.machine.run_row(text, schedule, cycle, latencies)? {
                return Ok(());
            }
        }
        Ok(())
    }
}
