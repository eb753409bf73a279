//! How memory and outputs make the operations of a block wait.
ghost use Rattle.std.specs.Prelude.{◌≡◌, ◌<◌, ◌≤◌, ◌+◌, ℕ, max, fold, map, length, slice_index, IfOk};
ghost use Rattle.iloc_meaning.specs.Trace.{op_at};
ghost use Rattle.iloc_timed.specs.Kinds.{kind};
ghost use Rattle.iloc_facts.specs.Readings.{reading_at};
ghost use Rattle.iloc_validation.specs.Steps.Waits.{earliest};

use iloc_facts::Reading;
use iloc_ops::{NoMemory, Op};
use iloc_timed::{Kind, Latencies, MAX_ROWS};
use std::alloc::Global;

/// From which cycle on memory and outputs let the next operation of a block be issued, by its kind.
#[derive(Clone, Copy)]
pub(crate) struct Waits {
    load: usize,
    store: usize,
    output: usize,
}

impl Waits {
    ghost use Rattle.iloc_validation.specs.Steps.Waits.{memory_by, wait_of, noted};
    ghost use Rattle.iloc_timed.specs.declared.kind.Kind.{Kind as kind_value};

    /// Before the first operation.
    fn none() -> Waits
        ensures { (k : kind_value) → wait_of result k ≡ 0 }
    {
        Waits {
            load: 0,
            store: 0,
            output: 0,
        }
    }

    /// After one operation of this kind that is issued at this cycle.
    pub(crate) fn after(kind: Kind, cycle: usize, latencies: &Latencies) -> Waits
        requires { cycle ≤ MAX_ROWS }
        ensures { (k : kind_value) → wait_of result k ≡ fold max 0 (map (λ d. cycle + d) (memory_by latencies.now kind k)) }
    {
        let mut waits = Waits::none();
        waits.note(kind, cycle, latencies);
        waits
    }

    /// That of an operation of this kind.
    pub(crate) fn of(&self, kind: Kind) -> usize
        ensures { result ≡ wait_of self.now kind }
    {
        match kind {
            Kind::Load => self.load,
            Kind::Store => self.store,
            Kind::Output => self.output,
            Kind::Mult | Kind::Other => 0,
        }
    }

    /// Takes in an operation of this kind that is issued at this cycle.
    fn note(&mut self, kind: Kind, cycle: usize, latencies: &Latencies)
        requires { cycle ≤ MAX_ROWS }
        ensures { self.new ≡ noted latencies.now kind cycle self.old }
    {
        let stored = cycle + latencies.store as usize;
        match kind {
            Kind::Load => self.store = self.store.max(cycle + 1),
            Kind::Store => {
                self.load = self.load.max(stored);
                self.store = self.store.max(cycle + 1);
                self.output = self.output.max(stored);
            }
            Kind::Output => {
                self.store = self.store.max(cycle + 1);
                self.output = self.output.max(cycle + 1);
            }
            Kind::Mult | Kind::Other => {}
        }
    }
}

/// By operation of a block the cycle from which on memory and outputs let it be issued, where each is issued when its
/// partner is.
pub(crate) fn waits_of(
    alloc: Global,
    block: &[Op],
    partner: &[usize],
    readings: &[Reading],
    latencies: &Latencies,
) -> Result<Vec<usize>, NoMemory>
    requires sized { length partner.now ≡ length block.now }
    requires known { (i : ℕ) → i < length block.now → slice_index partner.now i < length readings.now }
    requires early { (k : ℕ) → k < length readings.now → (reading_at readings.now k).cycle ≤ MAX_ROWS }
    ensures size { IfOk result (λ waits. length waits.items ≡ length block.now) }
    ensures each { IfOk result (λ waits. (i : ℕ) → i < length block.now → slice_index waits.items i
        ≡ earliest latencies.now block.now (λ j. (reading_at readings.now (slice_index partner.now j)).cycle) i
        (kind (op_at block.now i))) }
{
    let mut waits = Waits::none();
    let mut all = Vec::with_capacity(alloc, block.len())?;
    for (i, op) in block.iter().enumerate() {
        let kind = Kind::of(op);
        all.push(waits.of(kind))?;
        waits.note(kind, readings[partner[i]].cycle, latencies);
    }
    Ok(all)
}
