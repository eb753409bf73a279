//! How what rows do compares with what their block does.
ghost use Rattle.std.specs.Prelude.{IfOk, IfSome};
ghost use Rattle.iloc_comparison.specs.Comparison.{IsComparison};
ghost use Rattle.iloc_comparison.specs.Steps.Refuting.{DiffersAt};

use crate::difference::Difference;
use crate::refutation::clues::Clues;
use crate::refutation::effort::Effort;
use crate::refutation::probe::Probe;
use crate::refutation::{Refutation, Trial, difference_on, refute};
use crate::task::{JudgedBlock, Judging};
use crate::void::{Void, why_void};
use iloc_meaning::Memory;
use iloc_ops::NoMemory;
use iloc_terms::{Agreement, compare};
use iloc_timed::Schedule;
use std::alloc::Global;

/// How what rows do compares with what their block does.
#[derive(Debug, Drop, PartialEq, Eq)]
pub enum Comparison {
    /// The block's outcome on the memory handed in says nothing.
    Void(Void),
    /// On every memory of 16,384 words of 32 bits the rows have the block's outcome.
    Same,
    /// On every such memory they fault where the block does, and else emit its words. This is said where outputs alone are
    /// compared.
    Prints,
    /// On the memory handed in they have the block's outcome or, where outputs alone are compared, show what the block shows.
    Agrees,
    /// On the memory handed in they don't, and differ from it there.
    Differs(Difference),
    /// On the memory handed in they do, but on this one, which is made up, they don't, and differ from the block there.
    DiffersOn(Probe, Difference),
}

/// From so many operations on, of block and rows together, both are run before terms are made: to make terms takes longer
/// then.
const MANY_OPERATIONS: usize = 512;

/// Where a schedule's outcome on a memory differs from its block's, if both together have many operations.
fn difference_at_once(
    alloc: Global,
    trial: &Trial<'_>,
    memory: &Memory,
) -> Result<Option<Difference>, NoMemory>
    ensures { IfOk result (λ found. IfSome found (DiffersAt trial.now memory.now)) }
{
    let operations = trial
        .block
        .ops
        .len()
        .saturating_add(trial.schedule.ops().len());
    if operations < MANY_OPERATIONS {
        return Ok(None);
    }
    difference_on(alloc, trial, memory.copy()?)
}

/// Compares what a schedule does with what its block does. If both have many operations, they are first run on the memory
/// handed in: a difference there spares the terms. Ours, which has the block's outcome on every memory, is what it is
/// compared with. Where that doesn't show them the same, they are run on the memory handed in, and then on a few that are
/// made up, fewer where this is one of many blocks. That no difference was found doesn't mean that there is none: only
/// `Comparison::Same` and `Comparison::Prints` do.
pub fn compared(
    alloc: Global,
    judging: &Judging<'_>,
    task: &JudgedBlock<'_>,
    theirs: &Schedule,
) -> Result<Comparison, NoMemory>
    ensures { IfOk result (IsComparison judging.now.options.outputs_alone task.now.latencies.now task.now.block.now.ops
        theirs.now.ops theirs.now.rows judging.now.memory.now) }
{
    let (memory, blocks) = (judging.memory, judging.blocks);
    let outputs_alone = judging.options.outputs_alone;
    let (block, ours, latencies) = (task.block, task.ours, task.latencies);
    if let Some(why) = why_void(alloc, outputs_alone, block, memory)? {
        return Ok(Comparison::Void(why));
    }
    let trial = Trial {
        outputs_alone,
        block,
        schedule: theirs,
        latencies,
    };
    if let Some(difference) = difference_at_once(alloc, &trial, memory)? {
        return Ok(Comparison::Differs(difference));
    }
    let mentions = match compare(alloc, blocks, outputs_alone, ours, theirs, latencies)? {
        Agreement::Same => return Ok(Comparison::Same),
        Agreement::Prints => return Ok(Comparison::Prints),
        Agreement::Unseen(mentions) => mentions,
    };
    if let Some(difference) = difference_on(alloc, &trial, memory.copy()?)? {
        return Ok(Comparison::Differs(difference));
    }
    let effort = Effort::on_one_of(blocks, block, theirs);
    let clues = Clues::of(alloc, mentions, effort.span)?;
    match refute(alloc, &trial, &clues, effort)? {
        Some(Refutation { probe, difference }) => Ok(Comparison::DiffersOn(probe, difference)),
        None => Ok(Comparison::Agrees),
    }
}
