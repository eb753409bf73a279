//! Latencies: how many cycles operations take.
ghost use Rattle.std.specs.Prelude.{◌≡◌, ◌≤◌, ◌↔◌, IsSome, IfSome};
ghost use Rattle.iloc_timed.specs.Limits.{LONGEST_LATENCY};

use crate::kind::Kind;

/// The longest that a latency may be, in cycles.
pub const LONGEST_LATENCY: u32 = 16;

/// The latencies of loads, stores and products, in cycles, each from 1 to 16. Every other operation
/// takes one cycle.
#[derive(Clone, Copy, Debug, PartialEq, Eq)]
pub struct Latencies {
    /// Of `load` and `loadAI`.
    pub load: u32,
    /// Of `store` and `storeAI`.
    pub store: u32,
    /// Of `mult` and `multI`.
    pub mult: u32,
    pub ghost some_load: { 1 ≤ load },
    pub ghost short_load: { load ≤ LONGEST_LATENCY },
    pub ghost some_store: { 1 ≤ store },
    pub ghost short_store: { store ≤ LONGEST_LATENCY },
    pub ghost some_mult: { 1 ≤ mult },
    pub ghost short_mult: { mult ≤ LONGEST_LATENCY },
}

impl Latencies {
    ghost use Rattle.iloc_timed.specs.Latency.{IsLatency, latency_of};
    ghost use Rattle.iloc_timed.specs.Steps.Latencies.{by_kind, longest};

    /// Promise: these latencies, or `None` if one of them isn't from 1 to 16.
    pub fn new(load: u32, store: u32, mult: u32) -> Option<Latencies>
        ensures within { IsSome result ↔ (IsLatency load × IsLatency store × IsLatency mult) }
        ensures load { IfSome result (λ latencies. latencies.load ≡ load) }
        ensures store { IfSome result (λ latencies. latencies.store ≡ store) }
        ensures mult { IfSome result (λ latencies. latencies.mult ≡ mult) }
    {
        let within = |latency: u32| (1..=LONGEST_LATENCY).contains(&latency);
        if within(load) && within(store) && within(mult) {
            Some(Latencies { load, store, mult })
        } else {
            None
        }
    }

    /// Promise: the default latencies: loads and stores take five cycles, products three.
    pub fn usual() -> Latencies
        ensures load { result.load ≡ 5 }
        ensures store { result.store ≡ 5 }
        ensures mult { result.mult ≡ 3 }
    {
        Latencies {
            load: 5,
            store: 5,
            mult: 3,
        }
    }

    /// Promise: how many cycles after its issue the result of an operation of this kind arrives, from 1 to 16.
    #[inline(always)]
    pub fn of(&self, kind: Kind) -> u32
        ensures latency { result ≡ latency_of self.now kind }
        ensures within { IsLatency result }
    {
        // Where it isn't inlined, `counts` takes 4 % more processor time on blocks of a hundred operations.
        self.by_kind()[kind as usize]
    }

    /// The latencies of the kinds, in their order.
    ///
    /// With a match, which compiles to a jump, `counts` mispredicts 0.6 branches more for each operation.
    #[inline(always)]
    pub(crate) fn by_kind(&self) -> [u32; 5]
        ensures { result ≡ by_kind self.now }
    {
        [self.load, self.store, self.mult, 1, 1]
    }

    /// The longest: no operation takes more cycles.
    pub(crate) fn longest(&self) -> u32
        ensures { result ≡ longest self.now }
    {
        self.load.max(self.store).max(self.mult)
    }
}
