//! Memories on which a schedule's outcome isn't a block's.
ghost use Rattle.std.specs.Prelude.{MatchOption, IfOk, IfSome};
ghost use Rattle.iloc_comparison.specs.Comparison.{AgreesOn};
ghost use Rattle.iloc_comparison.specs.Memory.{memory_of};
ghost use Rattle.iloc_comparison.specs.Steps.Refuting.{DiffersAt};

mod aim;
pub(crate) mod clues;
pub(crate) mod effort;
mod pattern;
pub(crate) mod probe;
mod shortening;

use crate::difference::{Difference, first_difference};
use clues::Clues;
use effort::Effort;
use iloc_meaning::{Memory, run_block};
use iloc_ops::{Block, NoMemory};
use iloc_timed::{Latencies, Schedule, run_schedule};
use probe::Probe;
use shortening::shortened;
use std::alloc::Global;

/// A made-up memory on which a schedule's outcome differs from a block's, and where.
#[derive(Drop)]
pub(crate) struct Refutation {
    pub(crate) probe: Probe,
    pub(crate) difference: Difference,
}

/// A schedule that is run beside its block, on one memory after another.
#[derive(Clone, Copy)]
pub(crate) struct Trial<'a> {
    pub(crate) outputs_alone: bool,
    pub(crate) block: &'a Block,
    pub(crate) schedule: &'a Schedule,
    pub(crate) latencies: &'a Latencies,
}

/// Where a schedule's outcome on a memory differs from a block's: in more than memory, where outputs alone are compared.
pub(crate) fn difference_on(
    alloc: Global,
    trial: &Trial<'_>,
    memory: Memory,
) -> Result<Option<Difference>, NoMemory>
    ensures { IfOk result (λ found. MatchOption found
        (AgreesOn trial.now.outputs_alone trial.now.latencies.now trial.now.block.now.ops
        trial.now.schedule.now.ops trial.now.schedule.now.rows memory) (DiffersAt trial.now memory)) }
{
    let wanted = run_block(alloc, trial.block, memory.copy()?)?;
    let got = run_schedule(alloc, trial.schedule, trial.latencies, memory)?;
    Ok(first_difference(trial.outputs_alone, &got, &wanted))
}

/// The difference between a schedule's outcome and a block's on a made-up memory.
fn refutation_on(
    alloc: Global,
    trial: &Trial<'_>,
    probe: Probe,
) -> Result<Option<Refutation>, NoMemory>
    ensures { IfOk result (λ found. IfSome found (λ it.
        DiffersAt trial.now (memory_of it.probe) it.difference)) }
{
    let memory = Memory::with_words(alloc, probe.at, &probe.words)?;
    match difference_on(alloc, trial, memory)? {
        Some(difference) => Ok(Some(Refutation { probe, difference })),
        None => Ok(None),
    }
}

/// Tries a few memories that are made up of what two runs mention, and shortens the first that shows a difference.
pub(crate) fn refute(
    alloc: Global,
    trial: &Trial<'_>,
    clues: &Clues,
    effort: Effort,
) -> Result<Option<Refutation>, NoMemory>
    ensures { IfOk result (λ found. IfSome found (λ it.
        DiffersAt trial.now (memory_of it.probe) it.difference)) }
{
    for number in 0..effort.tries {
        let Some(cells) = clues.cells(alloc, number)? else {
            break;
        };
        let probe = Probe::of(alloc, &cells)?;
        if let Some(found) = refutation_on(alloc, trial, probe)? {
            return Ok(Some(shortened(alloc, trial, found, effort.reruns)?));
        }
    }
    Ok(None)
}
