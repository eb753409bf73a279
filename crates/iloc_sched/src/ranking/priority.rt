//! The longest chains of delays from operations.
ghost use Rattle.std.specs.Prelude.{◌≡◌, map, OnOk};
ghost use Rattle.iloc_timed.specs.Latency.{latency, latency_of};
ghost use Rattle.iloc_rules.specs.Priority.{priorities_where};
ghost use Rattle.iloc_rules.specs.Rule.{counts_by};
ghost use Rattle.iloc_sched.specs.Steps.Edges.SoundGraph.{IsSound};

use crate::tables::Tables;
use iloc_ops::NoMemory;
use iloc_timed::{Kind, Latencies};

/// Fills a list with the latency of each operation, by their kinds.
pub(crate) fn fill_latencies(
    own: &mut Vec<u32>,
    kinds: &[Kind],
    latencies: &Latencies,
) -> Result<(), NoMemory>
    ensures { OnOk result (own.new.items ≡ map (latency_of latencies.now) kinds.now) }
{
    own.clear();
    own.reserve(kinds.len())?;
    for kind in kinds {
        own.push(latencies.of(*kind))?;
    }
    Ok(())
}

/// Fills a list with the latency of each operation of a graph.
pub(crate) fn copy_latencies(found: &mut Vec<u32>, tables: &Tables) -> Result<(), NoMemory>
    requires { IsSound tables.now }
    ensures { OnOk result (found.new.items ≡ map (latency tables.now.latencies) tables.now.ops.items) }
{
    found.clear();
    Ok(found.extend_from_slice(&tables.own)?)
}

/// Fills `found` with the longest chain from each operation: its latency at first, raised by the kept edges. It is
/// final once the edges out of the operation are visited, which all come after the edges into it.
#[inline(always)]
pub(crate) fn fill_chains(found: &mut Vec<u32>, tables: &Tables) -> Result<(), NoMemory>
    requires { IsSound tables.now }
    ensures { OnOk result (found.new.items
        ≡ priorities_where (counts_by tables.now.rule tables.now.ops.items) tables.now.latencies tables.now.ops.items) }
{
    copy_latencies(found, tables)?;
    let edges = &tables.edges;
    for x in (0..edges.edge_count()).rev() {
        let edge = edges.get(x);
        let through = edge.delay + found[edge.to as usize];
        let source = edge.from as usize;
        found[source] = found[source].max(through);
    }
    Ok(())
}
