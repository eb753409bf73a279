//! Priorities other than the longest chains.
use crate::asserted::assert_list;
use crate::written::block_of;
use iloc_rules::Heuristic;
use iloc_sched::{priorities_by, rename};
use iloc_timed::Latencies;
use std::test::Fail;

/// A load whose user uses it twice, and which a store uses that waits for it anyway.
const TWICE: &[u8] =
    b"loadI 4 => r0\nload r0 => r1\nadd r1, r1 => r2\nstore r1 => r0\nstore r2 => r0\n\
    output 4\noutput 4\n";

#[test]
fn counts_who_waits_once(rt: HostRuntime) -> Result<(), Fail> {
    let ops = rename(rt.alloc(), &block_of(rt.alloc(), TWICE)?)?;
    let times = Latencies::usual();
    let found = priorities_by(rt.alloc(), &ops, &times, Heuristic::Successors)?;
    assert_list(&rt, &found, &[3, 3, 1, 3, 2, 1, 0]);
    Ok(())
}
