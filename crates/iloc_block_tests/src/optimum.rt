//! The best schedule of a block, and the bound that a search proves.
use crate::written::block_of;
use iloc_bound::least_of;
use iloc_optimum::Optimizer;
use iloc_rules::{MemoryRule, Sought};
use iloc_sched::Graph;
use iloc_timed::{Latencies, cycles};
use std::test::Fail;

/// Their `least` is 7, and no schedule takes 7 cycles: two products would want one row.
const AT_ONCE: &[u8] =
    b"multI r5, 3 => r4\nadd r5, r4 => r3\nmult r3, r4 => r4\nmult r2, r0 => r1\nmultI r1, 5 => r3\n";

/// By each heuristic they take 8 cycles.
const FOUND: &[u8] =
    b"multI r0, 12 => r4\nadd r4, r5 => r5\nmultI r3, 24 => r5\nmult r4, r5 => r1\n\
    add r0, r4 => r1\nmultI r5, 24 => r0\n";

/// Blocks, nodes, and the cycles and the bound that come of them.
const OPTIMA: &[(&[u8], u32, Sought)] = &[
    (AT_ONCE, 0, Sought { best: 8, bound: 7 }),
    (AT_ONCE, 1, Sought { best: 8, bound: 8 }),
    (FOUND, 0, Sought { best: 8, bound: 7 }),
    (FOUND, 1000, Sought { best: 7, bound: 7 }),
];

/// To be run with each growth refused in turn: after a refusal the next block has its optimum as after any other.
#[test]
fn proves_what_is_best(rt: HostRuntime) -> Result<(), Fail> {
    let times = Latencies::usual();
    let block = block_of(rt.alloc(), FOUND)?;
    let mut graph = Graph::new(rt.alloc());
    graph.refill(MemoryRule::Book, &block, &times)?;
    let mut optimizer = Optimizer::new(rt.alloc());
    let first = optimizer.optimize(&block, &graph, 1000);
    for (text, nodes, wanted) in OPTIMA {
        let block = block_of(rt.alloc(), text)?;
        graph.refill(MemoryRule::Book, &block, &times)?;
        let least = least_of(rt.alloc(), &graph)?;
        let optimum = optimizer.optimize(&block, &graph, *nodes)?;
        assert!(rt; optimum.bound == u64::from(wanted.bound), "{nodes}");
        assert!(rt;
            cycles(&optimum.schedule, &times) == u64::from(wanted.best),
            "{nodes}"
        );
        optimizer.take_back(optimum.schedule);
        assert!(rt;
            optimizer.seek_if(&block, &graph, least, Some(*nodes))? == Some(*wanted),
            "{nodes}"
        );
    }
    optimizer.take_back(first?.schedule);
    Ok(())
}
