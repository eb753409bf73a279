use crate::asserted::assert_list;
use crate::written::{Issue, block_of, build};
use iloc_meaning::{Memory, Outcome};
use iloc_timed::{Latencies, cycles, run_schedule};
use std::test::Fail;

/// The word at 0 arrives behind the constant.
const TEXT: &[u8] = b"load r9 => r1\nloadI 7 => r1\nstore r1 => r9\nstore r1 => r9\noutput 0\n";

const ISSUES: &[Issue] = &[
    (0, Some(0), None),
    (1, Some(1), None),
    (2, Some(2), None),
    (6, Some(3), None),
    (7, Some(4), None),
];

#[test]
fn emits_what_has_arrived_in_order_of_issue(rt: HostRuntime) -> Result<(), Fail> {
    let usual = Latencies::usual();
    let block = block_of(rt.alloc(), TEXT)?;
    let schedule = build(rt.alloc(), block.ops.as_slice(), ISSUES)?;
    assert!(rt; cycles(&schedule, &usual) == 11);
    let mut memory = Memory::zero(rt.alloc())?;
    memory.set(0, 3);
    let outcome = run_schedule(rt.alloc(), &schedule, &usual, memory)?;
    let Outcome::Finished { outputs, memory } = outcome else {
        return Err(Fail::from("a fault"));
    };
    assert_list(&rt, outputs.as_slice(), &[7]);
    assert!(rt; memory.get(0) == 3);
    Ok(())
}
