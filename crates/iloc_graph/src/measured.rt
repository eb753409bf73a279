//! What an explanation needs to know of the operations of a graph.
ghost use Rattle.std.specs.Prelude.{◌≡◌, length, IfOk};
ghost use Rattle.iloc_bound.specs.Bound.{least_of_under};
ghost use Rattle.iloc_explain.specs.Measures.{AreMeasures, ImplyAll};

use iloc_bound::least_of;
use iloc_explain::{Delays, Measures};
use iloc_ops::NoMemory;
use iloc_rules::Pair;
use iloc_sched::Graph;
use std::alloc::Global;

/// The delay pairs that a graph keeps, from which all follow.
fn kept_pairs(alloc: Global, graph: &Graph) -> Result<Vec<Pair>, NoMemory>
    ensures { IfOk result (λ pairs. ImplyAll graph.now.rule graph.now.latencies graph.now.ops pairs.items) }
{
    let mut pairs = Vec::new(alloc);
    for edge in graph.edges() {
        pairs.push(Pair {
            first: edge.from as usize,
            second: edge.to as usize,
            delay: u64::from(edge.delay),
        })?;
    }
    Ok(pairs)
}

/// What an explanation needs to know of the operations of `graph`, which `ranks` ranks.
pub fn measure(alloc: Global, graph: &Graph, ranks: Vec<u32>) -> Result<Measures<'_>, NoMemory>
    requires { length ranks.items ≡ length graph.now.ops }
    ensures ranks { IfOk result (λ measures. measures.ranks.items ≡ ranks.items) }
    ensures ops { IfOk result (λ measures. measures.delays.ops.now ≡ graph.now.ops) }
    ensures latencies { IfOk result (λ measures. measures.delays.latencies.now ≡ graph.now.latencies) }
    ensures rule { IfOk result (λ measures. measures.delays.rule ≡ graph.now.rule) }
    ensures least { IfOk result (λ measures. measures.least ≡ least_of_under graph.now.rule graph.now.latencies graph.now.ops) }
    ensures measures { IfOk result (AreMeasures graph.now.latencies graph.now.ops) }
{
    let delays = Delays::of(alloc, graph.ops(), graph.latencies(), graph.rule())?;
    let pairs = kept_pairs(alloc, graph)?;
    let mut chains = Vec::new(alloc);
    graph.chains(&mut chains)?;
    let mut starts = Vec::new(alloc);
    graph.starts(&mut starts)?;
    let least = least_of(alloc, graph)?;
    Ok(Measures {
        delays,
        pairs,
        ranks,
        chains,
        starts,
        least,
    })
}
