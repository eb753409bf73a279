//! How often numbers occur.

use iloc_ops::NoMemory;
use std::alloc::Global;
use std::collections::BTreeMap;

/// How often numbers occur.
#[derive(Drop)]
pub(crate) struct Counts {
    counts: BTreeMap<u64, usize>,
}

impl Counts {
    /// No number.
    pub(crate) fn none(alloc: Global) -> Counts {
        Counts {
            counts: BTreeMap::new(alloc),
        }
    }

    /// Counts `numbers`.
    pub(crate) fn of(alloc: Global, numbers: &[u64]) -> Result<Counts, NoMemory> {
        let mut counts = Counts::none(alloc);
        for number in numbers {
            counts.add(*number)?;
        }
        Ok(counts)
    }

    /// How often a number occurs.
    pub(crate) fn get(&self, number: u64) -> usize {
        self.counts.get(&number).copied().unwrap_or(0)
    }

    /// One more of a number.
    pub(crate) fn add(&mut self, number: u64) -> Result<(), NoMemory> {
        let count = self.get(number).saturating_add(1);
        self.counts.insert(number, count)?;
        Ok(())
    }
}
