//! The starts of operations.
ghost use Rattle.std.specs.Prelude.{◌≡◌, OnOk};
ghost use Rattle.iloc_rules.specs.Rule.{counts_by};
ghost use Rattle.iloc_rules.specs.Starts.{starts_where};
ghost use Rattle.iloc_sched.specs.Steps.Edges.SoundGraph.{IsSound};

use crate::ranking::heuristic::fill_zeros;
use crate::tables::Tables;
use iloc_ops::NoMemory;

/// Fills `found` with the start of each operation: 0 at first, raised by the kept edges. It is final once the edges
/// into the operation are visited, which all come before the edges out of it.
pub(crate) fn fill_starts(found: &mut Vec<u32>, tables: &Tables) -> Result<(), NoMemory>
    requires { IsSound tables.now }
    ensures { OnOk result (found.new.items
        ≡ starts_where (counts_by tables.now.rule tables.now.ops.items) tables.now.latencies tables.now.ops.items) }
{
    let edges = &tables.edges;
    fill_zeros(found, edges.op_count())?;
    for x in 0..edges.edge_count() {
        let edge = edges.get(x);
        let arrival = edge.delay + found[edge.from as usize];
        let target = edge.to as usize;
        found[target] = found[target].max(arrival);
    }
    Ok(())
}
