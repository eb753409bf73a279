//! The delay pairs that are drawn.
ghost use Rattle.std.specs.Prelude.{ℕ, ◌≡◌, ◌++◌, ◌<◌, length, map, slice_index, IfOk, OnOk};
ghost use Rattle.iloc_meaning.specs.Trace.{op_at};
ghost use Rattle.iloc_rules.specs.Rule.{counts_by};
ghost use Rattle.iloc_graph.specs.Nearest as near;
ghost use Rattle.iloc_graph.specs.Nearest.{pair_of, unpassed};

use iloc_explain::Delays;
use iloc_ops::NoMemory;
use iloc_rules::Pair;
use iloc_sched::Graph;
use iloc_timed::{Kind, latency};
use std::alloc::Global;

/// The operations that are near to operation `j`, by rising number.
fn near_to(alloc: Global, graph: &Graph, j: usize) -> Result<Vec<usize>, NoMemory>
    requires { j < length graph.now.ops }
    ensures { IfOk result (λ found. found.items ≡ near.near_to graph.now.rule graph.now.ops j) }
{
    let mut found = Vec::new(alloc);
    for edge in graph.edges_into(j) {
        found.push(edge.from as usize)?;
    }
    found.sort_unstable();
    found.dedup();
    Ok(found)
}

/// The longest delay that operation i puts on operation j, 0 where there is none: its latency or a cycle.
fn longest_delay(delays: &Delays<'_>, i: usize, j: usize) -> u64
    requires first { i < length delays.now.ops.now }
    requires second { j < length delays.now.ops.now }
    ensures { result ≡ near.longest_delay (counts_by delays.now.rule delays.now.ops.now i j) delays.now.latencies.now
        (op_at delays.now.ops.now i) (op_at delays.now.ops.now j) }
{
    let own = latency(&delays.ops[i], delays.latencies);
    if delays.has(i, j, own) {
        own
    } else if delays.has(i, j, 1) {
        1
    } else {
        0
    }
}

/// Whether operation `i` is a store or an output, and one of `later` has to come after it.
fn is_passed(delays: &Delays<'_>, i: usize, later: &[usize]) -> bool
    requires first { i < length delays.now.ops.now }
    requires within { (k : ℕ) → k < length later.now → slice_index later.now k < length delays.now.ops.now }
    ensures { result ≡ near.is_passed delays.now.rule delays.now.ops.now i later.now }
{
    if !matches!(Kind::of(&delays.ops[i]), Kind::Store | Kind::Output) {
        return false;
    }
    for k in later {
        if longest_delay(delays, i, *k) > 0 {
            return true;
        }
    }
    false
}

/// Appends a pair to operation `second` from each operation of `near` that no later one of `near` passes.
fn push_pairs(
    pairs: &mut Vec<Pair>,
    delays: &Delays<'_>,
    near: &[usize],
    second: usize,
) -> Result<(), NoMemory>
    requires there { second < length delays.now.ops.now }
    requires earlier { (k : ℕ) → k < length near.now → slice_index near.now k < second }
    ensures { OnOk result (pairs.new.items ≡ pairs.old.items
        ++ map (pair_of delays.now.rule delays.now.latencies.now delays.now.ops.now second)
        (unpassed delays.now.rule delays.now.ops.now near.now)) }
{
    for (place, first) in near.iter().enumerate() {
        if !is_passed(delays, *first, &near[place + 1..]) {
            pairs.push(Pair {
                first: *first,
                second,
                delay: longest_delay(delays, *first, second),
            })?;
        }
    }
    Ok(())
}

/// The delay pairs of the operations of `graph` that are drawn, in order of the later operation, then of the earlier one:
/// from each operation near to the later one, but for a store or an output after which another of them has to come. Of two
/// operations it has the longest delay alone. It takes time of order n log n in the number of operations and of edges: at
/// most one store is near to an operation, and an output is passed by the next that is near.
///
/// Promise: The pairs are just the nearest ones, each once, in that order.
pub(crate) fn nearest_pairs(
    alloc: Global,
    graph: &Graph,
    delays: &Delays<'_>,
) -> Result<Vec<Pair>, NoMemory>
    requires ops { delays.now.ops.now ≡ graph.now.ops }
    requires latencies { delays.now.latencies.now ≡ graph.now.latencies }
    requires rule { delays.now.rule ≡ graph.now.rule }
    ensures { IfOk result (λ pairs. pairs.items
        ≡ near.nearest_pairs graph.now.rule graph.now.latencies graph.now.ops) }
{
    let mut pairs = Vec::new(alloc);
    for second in 0..delays.ops.len() {
        let near = near_to(alloc, graph, second)?;
        push_pairs(&mut pairs, delays, &near, second)?;
    }
    Ok(pairs)
}
