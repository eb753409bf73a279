//! Results that are read in place of others: what sends them there is at fault, and not what should read them elsewhere.

use super::known::Known;
use crate::claim::{Claim, What, source_at};
use crate::terms::at;
use iloc_ops::NoMemory;
use std::alloc::Global;
use std::collections::BTreeMap;

/// What is claimed to be read in place of others.
#[derive(Drop)]
pub(crate) struct Misread {
    // By what it is meant to bring, an operation whose result is read in place of another.
    results: BTreeMap<u64, usize>,
    // The operations whose results they came over, each with one that was to read it.
    lost: BTreeMap<usize, usize>,
}

impl Misread {
    /// What `claims` say to be read in place of others.
    pub(crate) fn of(alloc: Global, known: &Known, claims: &[Claim]) -> Result<Misread, NoMemory> {
        let mut results = BTreeMap::new(alloc);
        let mut lost_to = BTreeMap::new(alloc);
        for claim in claims {
            if let What::ReadsOver { place, lost } = claim.what
                && let Some(j) = source_at(known.rows.flow.sources(claim.k), place)
            {
                results.insert(at(known.meant, j), j)?;
                if let Some(l) = lost {
                    lost_to.insert(l, claim.k)?;
                }
            }
        }
        Ok(Misread {
            results,
            lost: lost_to,
        })
    }

    /// Whether what operation `u` is meant to bring is read in place of another result.
    pub(crate) fn brings(&self, known: &Known, u: usize) -> bool {
        self.results.get(&at(known.meant, u)).is_some()
    }

    /// Whether another operation is meant to bring what operation `u` is, and is read in place of another result.
    fn brings_beside(&self, known: &Known, u: usize) -> bool {
        match self.results.get(&at(known.meant, u)) {
            Some(j) => *j != u,
            None => false,
        }
    }

    /// Whether `claim` follows from that.
    fn explains(&self, known: &Known, claim: &Claim) -> bool {
        match claim.what {
            What::NeverRead => {
                self.lost.get(&claim.k).is_some() || self.brings_beside(known, claim.k)
            }
            What::ReadsBefore { late, .. } => self.brings_beside(known, late),
            _ => false,
        }
    }

    /// The `claims` that don't follow from it.
    pub(crate) fn unexplained(
        &self,
        alloc: Global,
        known: &Known,
        claims: &[Claim],
    ) -> Result<Vec<Claim>, NoMemory> {
        let mut found = Vec::with_capacity(alloc, claims.len())?;
        for claim in claims {
            if !self.explains(known, claim) {
                found.push(*claim)?;
            }
        }
        Ok(found)
    }
}
