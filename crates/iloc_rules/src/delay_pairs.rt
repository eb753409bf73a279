//! Delay pairs: which operation has to wait for which, and for how many cycles.
ghost use Rattle.std.specs.Prelude.{◌≡◌, ◌==◌, ◌<◌, ◌≤◌, ◌↔◌, ◌&&◌, ◌||◌, ℕ, ◌++◌, length, Contains, IfOk, OnOk};
ghost use Rattle.std.specs.List.{AllPairs, list_any};
ghost use Rattle.iloc_timed.specs.Kinds.{kind};
ghost use Rattle.iloc_timed.specs.Latency.{latency};
ghost use Rattle.iloc_rules.specs.Renaming.{IsRenamed};
ghost use Rattle.iloc_rules.specs.Delays.{uses_result, reads_stored, keeps_order, delays, IsDelayPair};
ghost use Rattle.iloc_rules.specs.Pairs.{ComesBefore, rising, with_delays, pairs_from, pairs};

use arrayvec::ArrayVec;
use iloc_ops::{MAX_OPS, NoMemory, Op, defines, uses};
use iloc_timed::{Kind, Latencies, latency};
use std::alloc::Global;

/// No delay is longer, since no latency is.
pub const LONGEST_DELAY: usize = 16;

/// A delay pair of a list of operations, which it names by their numbers: `second` may be issued `delay`
/// cycles after `first` at the earliest.
#[derive(Clone, Copy, Debug, PartialEq, Eq)]
pub struct Pair {
    /// The operation that is waited for.
    pub first: usize,
    /// The operation that waits.
    pub second: usize,
    /// For how many cycles it waits.
    pub delay: u64,
}

/// Whether the second operation uses what the first defines.
fn uses_result(first: &Op, second: &Op) -> bool
    ensures { result ≡ uses_result first.now second.now }
{
    match defines(first) {
        Some(register) => uses(second)
            .as_slice()
            .iter()
            .any(|used| used.0 == register.0),
        None => false,
    }
}

/// Whether the second operation reads what the first may have stored.
pub fn reads_stored(first: Kind, second: Kind) -> bool
    ensures { result ≡ reads_stored first second }
{
    matches!((first, second), (Kind::Store, Kind::Load | Kind::Output))
}

/// Whether the second operation has to come after the first: a store after what reads or writes memory,
/// an output after an output.
pub fn keeps_order(first: Kind, second: Kind) -> bool
    ensures { result ≡ keeps_order first second }
{
    matches!(
        (first, second),
        (Kind::Load | Kind::Store | Kind::Output, Kind::Store) | (Kind::Output, Kind::Output)
    )
}

/// Promise: The delays in cycles that the first operation puts on the second, which comes later: rising, each once.
pub fn delays(first: &Op, second: &Op, latencies: &Latencies) -> ArrayVec<u64, 2>
    ensures { result.items ≡ rising (delays latencies.now first.now second.now) }
{
    let latency = latency(first, latencies);
    let kinds = (Kind::of(first), Kind::of(second));
    let waits = uses_result(first, second) || reads_stored(kinds.0, kinds.1);
    let mut delays = ArrayVec::new();
    if keeps_order(kinds.0, kinds.1) && !(waits && latency == 1) {
        delays.push(1);
    }
    if waits {
        delays.push(latency);
    }
    delays
}

/// Whether the second operation waits for the first in this order, and so long.
fn waits_in_order(first: Kind, second: Kind, delay: u64) -> bool
    ensures { result ≡ (keeps_order first second && (1 == delay)) }
{
    delay == 1 && keeps_order(first, second)
}

/// Whether the second operation waits for what the first gives, and so long.
fn waits_for_result(first: &Op, second: &Op, latencies: &Latencies, delay: u64) -> bool
    ensures { result ≡ ((latency latencies.now first.now == delay)
        && (reads_stored (kind first.now) (kind second.now) || uses_result first.now second.now)) }
{
    let kind = Kind::of(first);
    u64::from(latencies.of(kind)) == delay
        && (reads_stored(kind, Kind::of(second)) || uses_result(first, second))
}

/// Promise: Whether the first operation puts this delay, among others maybe, on the second, which comes later.
pub fn puts_delay(first: &Op, second: &Op, latencies: &Latencies, delay: u64) -> bool
    ensures { result ≡ list_any (λ d. d == delay) (delays latencies.now first.now second.now) }
{
    waits_in_order(Kind::of(first), Kind::of(second), delay)
        || waits_for_result(first, second, latencies, delay)
}

/// Pushes a pair from `first` to `second` for each of `delays`.
fn push_delays(
    pairs: &mut Vec<Pair>,
    first: usize,
    second: usize,
    delays: &[u64],
) -> Result<(), NoMemory>
    ensures { OnOk result (pairs.new.items ≡ pairs.old.items ++ with_delays first second delays.now) }
{
    for delay in delays {
        pairs.push(Pair {
            first,
            second,
            delay: *delay,
        })?;
    }
    Ok(())
}

/// Adds the pairs to this operation, which come from the operations before it.
fn push_pairs_to(
    pairs: &mut Vec<Pair>,
    ops: &[Op],
    latencies: &Latencies,
    second: usize,
) -> Result<(), NoMemory>
    requires { second < length ops.now }
    ensures { OnOk result
        (pairs.new.items ≡ pairs.old.items ++ pairs_from latencies.now ops.now second second) }
{
    for first in 0..second {
        let delays = delays(&ops[first], &ops[second], latencies);
        push_delays(pairs, first, second, delays.as_slice())?;
    }
    Ok(())
}

/// The delay pairs of renamed operations, at most `MAX_OPS`, in order of the later operation, then of the earlier one,
/// then of the delay. Each operation is compared with each, so n operations take time of order n * n.
///
/// Promise: Each delay pair of the operations is listed once, in that order, and nothing else is.
pub fn pairs(alloc: Global, ops: &[Op], latencies: &Latencies) -> Result<Vec<Pair>, NoMemory>
    requires renamed { IsRenamed ops.now }
    requires size { length ops.now ≤ MAX_OPS }
    ensures list { IfOk result (λ found. found.items ≡ pairs latencies.now ops.now) }
    ensures exact { IfOk result (λ found. (i j d : ℕ) →
        Contains found.items (record { first = i; second = j; delay = d })
        ↔ IsDelayPair latencies.now ops.now i j d) }
    ensures ordered { IfOk result (λ found. AllPairs ComesBefore found.items) }
{
    let mut pairs = Vec::new(alloc);
    for second in 0..ops.len() {
        push_pairs_to(&mut pairs, ops, latencies, second)?;
    }
    Ok(pairs)
}
