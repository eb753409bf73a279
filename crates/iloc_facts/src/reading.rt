//! When the operations of rows are issued, and what they read then.
ghost use Rattle.std.specs.Prelude.{◌≡◌, ◌<◌, ◌≤◌, ℕ, length, IfOk, OnOk, IfSome};
ghost use Rattle.iloc_ops.specs.Registers.{used};
ghost use Rattle.iloc_meaning.specs.Trace.{op_at};
ghost use Rattle.iloc_timed.specs.Limits.{MAX_ROWS};
ghost use Rattle.iloc_timed.specs.Rows.{IsTable};
ghost use Rattle.iloc_facts.specs.Steps.Tracks.Holders.{holder};
ghost use Rattle.iloc_facts.specs.Readings.{reading_at, reading_of, sources_of};
ghost use Rattle.iloc_facts.specs.Steps.Readings.{with_noted};

pub mod given;
pub mod holders;
pub mod run;
pub mod sources;

use crate::reading::run::Run;
use crate::reading::sources::Sources;
use iloc_ops::{NoMemory, Op};
use iloc_timed::{Latencies, Schedule};
use std::alloc::Global;

/// When an operation is issued, and what it reads.
#[derive(Clone, Copy, Debug)]
pub struct Reading {
    /// The cycle of its row.
    pub cycle: usize,
    /// The operations of the rows whose results it reads.
    pub sources: Sources,
}

/// Notes what the operation in a slot of the row of a cycle reads.
fn note(readings: &mut Vec<Reading>, run: &Run, ops: &[Op], slot: Option<usize>, cycle: usize)
    requires known { IfSome slot (λ k. k < length ops.now) }
    requires sized { length readings.old.items ≡ length ops.now }
    ensures { readings.new.items ≡ with_noted readings.old.items slot (λ k. record {
      cycle = cycle;
      sources = sources_of (holder run.now.holders) (used (op_at ops.now k));
    }) }
{
    if let Some(k) = slot {
        readings[k] = Reading {
            cycle,
            sources: run.holders.sources(&ops[k]),
        };
    }
}

/// By operation of a schedule when it is issued, and what it reads then.
pub(crate) fn readings(
    alloc: Global,
    schedule: &Schedule,
    latencies: &Latencies,
) -> Result<Vec<Reading>, NoMemory>
    ensures table { OnOk result (IsTable schedule.now.ops schedule.now.rows) }
    ensures few { OnOk result (length schedule.now.rows ≤ MAX_ROWS) }
    ensures size { IfOk result (λ readings. length readings.items ≡ length schedule.now.ops) }
    ensures each { IfOk result (λ readings. (k : ℕ) → k < length schedule.now.ops → reading_at readings.items k
        ≡ reading_of latencies.now schedule.now.ops schedule.now.rows k) }
{
    let none = Reading {
        cycle: 0,
        sources: Sources::Nothing,
    };
    let ops = schedule.ops();
    let mut readings = vec![in alloc; none; ops.len()]?;
    let mut run = Run::new(alloc)?;
    for (cycle, row) in schedule.rows().iter().enumerate() {
        run.land(cycle)?;
        note(&mut readings, &run, ops, row.zero, cycle);
        note(&mut readings, &run, ops, row.one, cycle);
        run.issue(ops, row.zero, cycle, latencies)?;
        run.issue(ops, row.one, cycle, latencies)?;
    }
    Ok(readings)
}
