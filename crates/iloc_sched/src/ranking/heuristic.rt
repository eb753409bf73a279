//! The priorities of a graph by each heuristic.
ghost use Rattle.std.specs.Prelude.{◌≡◌, ◌≤◌, length, replicate, OnOk};
ghost use Rattle.iloc_rules.specs.Renaming.{IsRenamed};
ghost use Rattle.iloc_rules.specs.Heuristics.{priorities_by_where};
ghost use Rattle.iloc_rules.specs.Rule.{counts_by};
ghost use Rattle.iloc_sched.specs.Steps.Edges.SoundGraph.{IsSound};

use crate::ranking::descendants::count_descendants;
use crate::ranking::priority::{copy_latencies, fill_chains};
use crate::ranking::slack::fill_through;
use crate::tables::Tables;
use iloc_addresses::count_successors;
use iloc_ops::{MAX_OPS, NoMemory};
use iloc_rules::Heuristic;
use std::alloc::Global;

/// Makes `found` a list of `count` zeros.
pub(crate) fn fill_zeros(found: &mut Vec<u32>, count: usize) -> Result<(), NoMemory>
    ensures { OnOk result (found.new.items ≡ replicate count 0) }
{
    found.clear();
    found.resize(count, 0)?;
    Ok(())
}

/// Fills a list with the priorities of operations by a heuristic.
#[inline(always)]
pub(crate) fn fill_ranks(
    found: &mut Vec<u32>,
    heuristic: Heuristic,
    alloc: Global,
    tables: &Tables,
) -> Result<(), NoMemory>
    requires sound { IsSound tables.now }
    requires renamed { IsRenamed tables.now.ops.items }
    requires few { length tables.now.ops.items ≤ MAX_OPS }
    ensures { OnOk result (found.new.items
        ≡ priorities_by_where (counts_by tables.now.rule tables.now.ops.items) heuristic tables.now.latencies tables.now.ops.items) }
{
    match heuristic {
        Heuristic::Chain => fill_chains(found, tables),
        Heuristic::Slack => fill_through(found, alloc, tables),
        Heuristic::Descendants => count_descendants(found, alloc, tables),
        Heuristic::Successors => {
            *found = count_successors(alloc, tables.rule, &tables.ops)?;
            Ok(())
        }
        Heuristic::Latency => copy_latencies(found, tables),
        Heuristic::Order => fill_zeros(found, tables.ops.len()),
    }
}
