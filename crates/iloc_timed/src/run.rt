//! What a schedule does on the timed machine.
ghost use Rattle.std.specs.Prelude.{◌≡◌, IfOk};
ghost use Rattle.iloc_timed.specs.Timed.{timed_outcome};

use crate::latencies::Latencies;
use crate::schedule::Schedule;
use crate::simulator::Simulator;
use iloc_meaning::{Memory, Outcome};
use iloc_ops::NoMemory;
use std::alloc::Global;

/// Promise: the outcome on the timed machine of a schedule that starts with all registers 0 and this memory.
///
/// At the start of each cycle the results that are due are written, in order of issue (unit 0 before unit 1); then the
/// operations of its row read registers and memory. A read before a result has arrived gets the old value. Outputs and
/// faults happen at issue, and the run ends at the first fault. After the last row the results that are still under way
/// are written, in order of due cycle, then of issue. After a refusal of memory, as after a fault, the memory is dropped.
pub fn run_schedule(
    alloc: Global,
    schedule: &Schedule,
    latencies: &Latencies,
    memory: Memory,
) -> Result<Outcome, NoMemory>
    ensures { IfOk result (λ outcome. outcome ≡ timed_outcome latencies.now schedule.now.ops schedule.now.rows memory) }
{
    let mut simulator = Simulator::new(alloc, memory)?;
    simulator.run(schedule, latencies)?;
    Ok(simulator.into_outcome())
}
