//! Schedules in which operations whose addresses are known to differ don't wait for each other by memory.
use crate::written::block_of;
use iloc_rules::MemoryRule;
use iloc_sched::schedule_by;
use iloc_timed::{Latencies, cycles};
use std::test::Fail;

/// Three words are copied.
const COPY: &[u8] =
    b"loadI 0 => r0\nloadI 1024 => r1\nload r0 => r2\nstore r2 => r1\nloadAI r0, 4 => r3\nstoreAI r3 => r1, 4\n\
    loadAI r0, 8 => r4\nstoreAI r4 => r1, 8\noutput 1024\noutput 1028\noutput 1032\n";

#[test]
fn schedules_by_each_rule(rt: HostRuntime) -> Result<(), Fail> {
    let times = Latencies::usual();
    let block = block_of(rt.alloc(), COPY)?;
    for (rule, wanted) in [(MemoryRule::Book, 34), (MemoryRule::Address, 14)] {
        let schedule = schedule_by(rt.alloc(), &block, &times, rule)?;
        assert!(rt; cycles(&schedule, &times) == wanted);
    }
    Ok(())
}
