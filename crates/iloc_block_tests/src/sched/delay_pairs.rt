//! The delay pairs of a block.
use crate::written::block_of;
use iloc_rules::pairs;
use iloc_sched::rename;
use iloc_timed::Latencies;
use std::test::Fail;

/// All but the first two wait for others.
const SEVEN_OPERATIONS: &[u8] =
    b"loadI 4 => r1\nloadI 8 => r2\nmult r1, r2 => r3\nload r1 => r4\nadd r3, r4 => r5\nstore r5 => r2\noutput 8\n";

/// First, second and delay of each pair.
const SEVEN_PAIRS: &[(usize, usize, u64)] = &[
    (0, 2, 1),
    (1, 2, 1),
    (0, 3, 1),
    (2, 4, 3),
    (3, 4, 5),
    (1, 5, 1),
    (3, 5, 1),
    (4, 5, 1),
    (5, 6, 5),
];

#[test]
fn lists_what_waits_for_what(rt: HostRuntime) -> Result<(), Fail> {
    let ops = rename(rt.alloc(), &block_of(rt.alloc(), SEVEN_OPERATIONS)?)?;
    let found = pairs(rt.alloc(), &ops, &Latencies::usual())?;
    assert!(rt; found.len() == SEVEN_PAIRS.len());
    for (pair, told) in found.iter().zip(SEVEN_PAIRS) {
        assert!(rt; (pair.first, pair.second, pair.delay) == *told, "{pair:?}");
    }
    Ok(())
}
