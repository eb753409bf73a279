//! The priorities of renamed operations, by each heuristic.
ghost use Rattle.std.specs.Prelude.{◌≡◌, ◌≤◌, length, IfOk};
ghost use Rattle.iloc_rules.specs.Priority.{priorities};
ghost use Rattle.iloc_rules.specs.Heuristics.{priorities_by};
ghost use Rattle.iloc_rules.specs.Renaming.{IsRenamed};

pub mod descendants;
pub mod heuristic;
pub mod priority;
pub mod slack;
pub mod starts;

use crate::edges::lasts::Lasts;
use crate::ranking::heuristic::fill_ranks;
use crate::tables::Tables;
use iloc_ops::{MAX_OPS, NoMemory, Op};
use iloc_rules::Heuristic;
use iloc_timed::Latencies;
use std::alloc::Global;

/// By operation its priority by a heuristic: of ready operations the one of the highest goes first, and of equals the one
/// of the lowest number.
///
/// The operations are renamed, as by `rename`, and at most `MAX_OPS`. It takes time linear in their number where their
/// registers have numbers below three times that, but for `Heuristic::Descendants`, which takes n * n / 64.
///
/// Promise: The priorities are those that the heuristic defines over the delay pairs of the operations.
pub fn priorities_by(
    alloc: Global,
    ops: &[Op],
    latencies: &Latencies,
    heuristic: Heuristic,
) -> Result<Vec<u64>, NoMemory>
    requires renamed { IsRenamed ops.now }
    requires few { length ops.now ≤ MAX_OPS }
    ensures { IfOk result (λ prios. prios.items ≡ priorities_by heuristic latencies.now ops.now) }
{
    let mut tables = Tables::new(alloc);
    tables.open_renamed(&mut Lasts::new(alloc), ops, latencies)?;
    let mut found = Vec::new(alloc);
    fill_ranks(&mut found, heuristic, alloc, &tables)?;
    let mut prios = Vec::new(alloc);
    prios.reserve(found.len())?;
    for prio in found.as_slice() {
        prios.push(u64::from(*prio))?;
    }
    Ok(prios)
}

/// By operation its priority: how many cycles are left at least from its issue to the end of the block.
///
/// The operations are renamed, as by `rename`, and at most `MAX_OPS`. It takes time linear in their number where their
/// registers have numbers below three times that.
///
/// Promise: The priority of an operation is the greatest of its latency and, over the operations that have to wait for it,
/// of the delay and their priority together.
pub fn priorities(alloc: Global, ops: &[Op], latencies: &Latencies) -> Result<Vec<u64>, NoMemory>
    requires renamed { IsRenamed ops.now }
    requires few { length ops.now ≤ MAX_OPS }
    ensures { IfOk result (λ prios. prios.items ≡ priorities latencies.now ops.now) }
{
    priorities_by(alloc, ops, latencies, Heuristic::Chain)
}
