//! The delays that operations put on one another by a rule of memory.
ghost use Rattle.std.specs.Prelude.{◌≡◌, ◌==◌, ◌≤◌, ◌<◌, ◌↔◌, ◌&&◌, length, Contains, IfOk, IsTrue};
ghost use Rattle.std.specs.List.{list_any};
ghost use Rattle.iloc_meaning.specs.Trace.{op_at};
ghost use Rattle.iloc_timed.specs.Kinds.{is_output, is_store, kind};
ghost use Rattle.iloc_rules.specs.Apart.{apart_if_both};
ghost use Rattle.iloc_rules.specs.Delays.{delays_where, uses_result as uses_result_of};
ghost use Rattle.iloc_rules.specs.Rule.{counts_by};
ghost use Rattle.iloc_explain.specs.Addresses.{AreAddresses};
ghost use Rattle.iloc_explain.specs.Steps.Waits.{waits_for};

use iloc_addresses::{are_apart, known_addresses};
use iloc_ops::{MAX_OPS, NoMemory, Op, defines, uses};
use iloc_rules::{MemoryRule, Word, puts_delay};
use iloc_timed::{Kind, Latencies, latency};
use std::alloc::Global;

/// Operations, and what says by a rule of memory which delays they put on one another.
#[derive(Drop)]
pub struct Delays<'a> {
    pub ops: &'a [Op],
    pub latencies: &'a Latencies,
    rule: MemoryRule,
    /// By operation what is known of its address; nothing by the book, where all pairs count.
    addresses: Vec<Option<Word>>,
    ghost known: { AreAddresses rule ops.now addresses.items },
}

/// What has to be known of addresses by a rule.
fn addresses_by(alloc: Global, ops: &[Op], rule: MemoryRule) -> Result<Vec<Option<Word>>, NoMemory>
    requires { length ops.now ≤ MAX_OPS }
    ensures { IfOk result (λ addresses. AreAddresses rule ops.now addresses.items) }
{
    match rule {
        MemoryRule::Book => Ok(Vec::new(alloc)),
        MemoryRule::Address => known_addresses(alloc, ops),
    }
}

/// Whether two operations with the addresses `first` and `second` are apart.
fn apart_if_both(first: Option<Word>, second: Option<Word>) -> bool
    ensures { result ≡ apart_if_both first second }
{
    match (first, second) {
        (Some(first), Some(second)) => are_apart(first, second),
        _ => false,
    }
}

/// Whether both are stores.
fn are_stores(first: &Op, second: &Op) -> bool
    ensures { result ≡ (is_store (kind first.now) && is_store (kind second.now)) }
{
    matches!(
        (Kind::of(first), Kind::of(second)),
        (Kind::Store, Kind::Store)
    )
}

/// Whether the second operation uses what the first defines.
fn uses_result(first: &Op, second: &Op) -> bool
    ensures { result ≡ uses_result_of first.now second.now }
{
    match defines(first) {
        Some(register) => uses(second)
            .as_slice()
            .iter()
            .any(|used| used.0 == register.0),
        None => false,
    }
}

/// Whether both are outputs, which keep their order whether they count or not.
fn are_outputs(first: &Op, second: &Op) -> bool
    ensures { result ≡ (is_output (kind first.now) && is_output (kind second.now)) }
{
    matches!(
        (Kind::of(first), Kind::of(second)),
        (Kind::Output, Kind::Output)
    )
}

/// Whether the first operation puts this delay on the second, given whether the two count.
fn puts_delay_where(
    counts: bool,
    first: &Op,
    second: &Op,
    latencies: &Latencies,
    delay: u64,
) -> bool
    ensures { result ≡ list_any (λ d. d == delay) (delays_where counts latencies.now first.now second.now) }
{
    if counts || are_outputs(first, second) {
        return puts_delay(first, second, latencies, delay);
    }
    uses_result(first, second) && latency(first, latencies) == delay
}

impl Delays<'_> {
    /// Promise: It says which delays `ops` put on one another by `rule`.
    ///
    /// By address it takes time of order n log n.
    pub fn of<'a>(
        alloc: Global,
        ops: &'a [Op],
        latencies: &'a Latencies,
        rule: MemoryRule,
    ) -> Result<Delays<'a>, NoMemory>
        requires { length ops.now ≤ MAX_OPS }
        ensures ops { IfOk result (λ delays. delays.ops.now ≡ ops.now) }
        ensures latencies { IfOk result (λ delays. delays.latencies.now ≡ latencies.now) }
        ensures rule { IfOk result (λ delays. delays.rule ≡ rule) }
    {
        let addresses = addresses_by(alloc, ops, rule)?;
        Ok(Delays {
            ops,
            latencies,
            rule,
            addresses,
        })
    }

    /// Whether operations i and j count.
    fn counts(&self, i: usize, j: usize) -> bool
        requires first { i < length self.now.ops.now }
        requires second { j < length self.now.ops.now }
        ensures { result ≡ counts_by self.now.rule self.now.ops.now i j }
    {
        match self.rule {
            MemoryRule::Book => true,
            MemoryRule::Address => {
                are_stores(&self.ops[i], &self.ops[j])
                    || !apart_if_both(self.addresses[i], self.addresses[j])
            }
        }
    }

    /// Promise: Whether operation i puts this delay on operation j, which comes later, by the rule of memory.
    pub fn has(&self, i: usize, j: usize, delay: u64) -> bool
        requires first { i < length self.now.ops.now }
        requires second { j < length self.now.ops.now }
        ensures { IsTrue result ↔ Contains (delays_where (counts_by self.now.rule self.now.ops.now i j) self.now.latencies.now
            (op_at self.now.ops.now i) (op_at self.now.ops.now j)) delay }
    {
        let (first, second) = (&self.ops[i], &self.ops[j]);
        puts_delay_where(self.counts(i, j), first, second, self.latencies, delay)
    }

    /// Whether operation j waits `delay` cycles for operation i.
    pub(crate) fn waits(&self, i: usize, j: usize, delay: u64) -> bool
        requires first { i < length self.now.ops.now }
        requires second { j < length self.now.ops.now }
        ensures { result ≡ waits_for self.now.rule self.now.latencies.now self.now.ops.now j delay i }
    {
        let (first, second) = (&self.ops[i], &self.ops[j]);
        i < j && puts_delay_where(self.counts(i, j), first, second, self.latencies, delay)
    }
}
