//! When operations are ready.
ghost use Rattle.std.specs.Prelude.{ℕ, ◌+◌, ◌≤◌, ◌<◌, ◌^◌, length, slice_index, Contains, IfOk};
ghost use Rattle.iloc_rules.specs.declared.delay_pairs.Pair.{Pair as pair_value};
ghost use Rattle.iloc_explain.specs.Steps.Ready.{AreReady};

use iloc_ops::NoMemory;
use iloc_rules::{LONGEST_DELAY, Pair};
use std::alloc::Global;

/// By operation the cycle at which the last delay of `pairs` to it is over, where operations are `issued` at their
/// cycles.
pub(crate) fn ready_cycles(
    alloc: Global,
    pairs: &[Pair],
    issued: &[usize],
) -> Result<Vec<usize>, NoMemory>
    requires first { (p : pair_value) → Contains pairs.now p → p.first < length issued.now }
    requires second { (p : pair_value) → Contains pairs.now p → p.second < length issued.now }
    requires short { (p : pair_value) → Contains pairs.now p → p.delay ≤ LONGEST_DELAY }
    requires early { (i : ℕ) → i < length issued.now → slice_index issued.now i + LONGEST_DELAY < 2 ^ 63 }
    ensures { IfOk result (λ ready. AreReady pairs.now issued.now ready.items) }
{
    let mut ready = vec![in alloc; 0; issued.len()]?;
    for pair in pairs {
        let over = issued[pair.first] + pair.delay as usize;
        ready[pair.second] = ready[pair.second].max(over);
    }
    Ok(ready)
}
