//! Each call that takes memory, on a small block and on a middling one: to be run with each growth refused in turn.
ghost use Rattle.std.specs.Prelude.{◌≤◌, length, IfOk};

use crate::asserted::assert_list;
use iloc_ops::{Block, MAX_OPS, Op, Ops, Reg};
use iloc_rules::pairs;
use iloc_sched::{priorities, rename, schedule};
use iloc_timed::Latencies;
use std::alloc::Global;
use std::process::Abort;
use std::test::Fail;

const SUM: Op = Op::AddI {
    left: Reg(7),
    value: 1,
    dest: Reg(7),
};

/// A chain of `count` sums over one register.
fn chain(alloc: Global, count: usize) -> Result<Block, Fail>
    ensures { IfOk result (λ block. length block.ops ≤ MAX_OPS) }
{
    Ok(Block {
        name: None,
        ops: Ops::new(vec![in alloc; SUM; count.min(MAX_OPS)]?),
    })
}

/// Asserts what comes of a chain of sums.
fn assert_chained(rt: &impl Abort, alloc: Global, block: &Block) -> Result<(), Fail>
    requires { length block.now.ops ≤ MAX_OPS }
{
    let usual = Latencies::usual();
    let count = block.ops.len();
    let ops = rename(alloc, block)?;
    assert!(rt; pairs(alloc, &ops, &usual)?.len().wrapping_add(1) == count);
    assert!(rt; priorities(alloc, &ops, &usual)?.len() == count);
    let schedule = schedule(alloc, block, &usual)?;
    assert_list(rt, schedule.ops(), &ops);
    assert!(rt; schedule.rows().len() == count);
    Ok(())
}

#[test]
fn schedules_chains(rt: HostRuntime) -> Result<(), Fail> {
    for count in [3, 100] {
        let block = chain(rt.alloc(), count)?;
        assert_chained(&rt, rt.alloc(), &block)?;
    }
    Ok(())
}
