//! How many cycles are left at least from the issue of each operation.
ghost use Rattle.std.specs.Prelude.{◌≡◌, ◌+◌, ◌<◌, ◌≤◌, ◌^◌, length, IfOk, OnOk};
ghost use Rattle.iloc_rules.specs.Least.{tails};
ghost use Rattle.iloc_bound.specs.Bound.{tails_under};
ghost use Rattle.iloc_rules.specs.declared.memory_rule.MemoryRule.TheVariants.{Book};
ghost use Rattle.iloc_bound.specs.Steps.Tails.{tail_by, loads_by, IsTailed};

use crate::needed::needed;
use iloc_ops::{MAX_OPS, NoMemory};
use iloc_rules::{Heuristic, MemoryRule};
use iloc_sched::Graph;
use iloc_timed::Kind;
use std::alloc::Global;

/// Raises the numbers of the operations that operation `j` waits for by the tail of `j`.
fn raise_sources(found: &mut Vec<u32>, graph: &Graph, j: usize)
    requires book { graph.now.rule ≡ Book }
    requires few { length graph.now.ops ≤ MAX_OPS }
    requires there { j < length graph.now.ops }
    requires tailed { IsTailed graph.now.latencies graph.now.ops found.old.items j (j + 1) }
    ensures { IsTailed graph.now.latencies graph.now.ops found.new.items j j }
{
    let edges = graph.edges_into(j);
    for edge in edges {
        let through = edge.delay + found[j];
        let source = edge.from as usize;
        found[source] = found[source].max(through);
    }
}

/// The tail of an operation of this kind, of which latency and delays leave `chain`: a store's by what the loads up to the
/// next store need too. A load is put among the loads.
fn tail_of(kind: Kind, chain: u32, store: u32, loads: &mut Vec<u32>) -> Result<u32, NoMemory>
    requires { tail_by kind chain store loads.old.items < 2 ^ 32 }
    ensures tail { IfOk result (λ tail. tail ≡ tail_by kind chain store loads.old.items) }
    ensures loads { OnOk result (loads.new.items ≡ loads_by kind chain loads.old.items) }
{
    match kind {
        Kind::Load => {
            loads.push(chain)?;
            Ok(chain)
        }
        Kind::Store => {
            let behind = needed(u64::from(store), 1, loads);
            loads.clear();
            Ok(chain.max(behind as u32))
        }
        Kind::Mult | Kind::Output | Kind::Other => Ok(chain),
    }
}

/// Fills a list with the tails by the book. A tail is there once the pairs out of its operation are gone through, which all
/// lead to later ones.
fn fill_by_the_book(alloc: Global, found: &mut Vec<u32>, graph: &Graph) -> Result<(), NoMemory>
    requires { graph.now.rule ≡ Book }
    ensures { OnOk result (found.new.items ≡ tails graph.now.latencies graph.now.ops) }
{
    graph.rank(Heuristic::Latency, found)?;
    let kinds = graph.kinds();
    let store = graph.latencies().store;
    let mut loads = Vec::new(alloc);
    for j in (0..kinds.len()).rev() {
        let chain = found[j];
        let tail = tail_of(kinds[j], chain, store, &mut loads)?;
        found[j] = tail;
        raise_sources(found, graph, j);
    }
    Ok(())
}

/// Fills a list with the tails of a graph's operations by its rule: how many cycles are left at least from the issue of each.
pub fn fill_tails(alloc: Global, found: &mut Vec<u32>, graph: &Graph) -> Result<(), NoMemory>
    ensures { OnOk result (found.new.items ≡ tails_under graph.now.rule graph.now.latencies graph.now.ops) }
{
    match graph.rule() {
        MemoryRule::Book => fill_by_the_book(alloc, found, graph),
        MemoryRule::Address => graph.chains(found),
    }
}
