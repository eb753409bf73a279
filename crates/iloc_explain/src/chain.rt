//! A longest chain of delays.
ghost use Rattle.std.specs.Prelude.{◌≡◌, ◌<◌, ◌↔◌, [], length, IfOk, IsTrue, MatchOption};
ghost use Rattle.iloc_explain.specs.Chain.{Continues, IsLongestChain, SpansTheGreatest, chains_by};
ghost use Rattle.iloc_explain.specs.Steps.Greatest.{IsPlaceOfGreatest};

use crate::delays::Delays;
use iloc_ops::NoMemory;
use std::alloc::Global;

/// The first place of the greatest number.
pub(crate) fn place_of_greatest(numbers: &[u32]) -> Option<usize>
    ensures { MatchOption result (numbers.now ≡ []) (IsPlaceOfGreatest numbers.now) }
{
    if numbers.is_empty() {
        return None;
    }
    let mut greatest = 0;
    for i in 1..numbers.len() {
        if numbers[greatest] < numbers[i] {
            greatest = i;
        }
    }
    Some(greatest)
}

/// Whether a longest chain from operation i may go on with operation j.
fn continues(delays: &Delays<'_>, chains: &[u32], i: usize, j: usize) -> bool
    requires order { i < j }
    requires within { j < length delays.now.ops.now }
    requires chains { chains.now ≡ chains_by delays.now.rule delays.now.latencies.now delays.now.ops.now }
    ensures { IsTrue result ↔ Continues delays.now.rule delays.now.latencies.now delays.now.ops.now i j }
{
    let own = chains[i];
    let next = chains[j];
    next <= own && delays.has(i, j, u64::from(own - next))
}

/// A longest chain of delays of renamed operations, by how long the longest chains from each are: it starts with the first
/// operation from which one of the longest leads, and goes on with the first operation whose delay and longest chain together
/// are that of the one before. It takes time linear in the number of operations.
///
/// Promise: The chain is that one, and its delays and the latency of its last operation together are as long as the longest.
pub fn longest_chain(
    alloc: Global,
    delays: &Delays<'_>,
    chains: &[u32],
) -> Result<Vec<usize>, NoMemory>
    requires { chains.now ≡ chains_by delays.now.rule delays.now.latencies.now delays.now.ops.now }
    ensures chosen { IfOk result (λ chain.
        IsLongestChain delays.now.rule delays.now.latencies.now delays.now.ops.now chain.items) }
    ensures longest { IfOk result (λ chain.
        SpansTheGreatest delays.now.rule delays.now.latencies.now delays.now.ops.now chain.items) }
{
    let mut chain = Vec::new(alloc);
    let Some(first) = place_of_greatest(chains) else {
        return Ok(chain);
    };
    chain.push(first)?;
    let mut last = first;
    for j in first + 1..delays.ops.len() {
        if continues(delays, chains, last, j) {
            chain.push(j)?;
            last = j;
        }
    }
    Ok(chain)
}
