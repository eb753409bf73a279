//! Operations that read a register in which nothing brings what they are meant to read, while another register gets it: whether
//! they are at fault, or what brings it.

use super::data_flow::put;
use super::known::Known;
use super::misread::Misread;
use crate::claim::{Claim, What, source_at};
use iloc_ops::{NoMemory, Reg, defines, uses};
use std::alloc::Global;
use std::collections::BTreeMap;

/// Why an operation reads something else at a place than it is meant to.
#[derive(Clone, Copy)]
pub(crate) enum Cause {
    /// What this says.
    Said(Claim),
    /// That this operation brings it elsewhere, where others read it.
    Elsewhere(usize),
    /// That this one does, in a register of others, and nobody reads it.
    Astray(usize),
}

/// Why an operation reads otherwise than it is meant to, left to right.
pub(crate) type Causes = (Option<Cause>, Option<Cause>);

/// What is claimed of an operation unless what it is meant to read at a place is brought elsewhere.
#[derive(Clone, Copy)]
pub(crate) struct Doubt {
    pub claim: Claim,
    pub place: usize,
    pub cause: Cause,
}

/// Until when what registers hold is read rightly, and stays.
#[derive(Drop)]
struct Lives {
    // By operation the cycle behind the last in which its result is read rightly, and that in which another replaces it.
    read: Vec<usize>,
    replaced: Vec<usize>,
    // By register the same of what it holds at the start.
    at_start: BTreeMap<u32, usize>,
}

/// The register that operation k of the rows reads at a place.
fn register_at(known: &Known, k: usize, place: usize) -> Option<Reg> {
    let op = known.rows.flow.ops.get(k)?;
    uses(op).get(place).copied()
}

/// By operation of the rows the cycle in which another result replaces its own.
fn replaced(alloc: Global, known: &Known) -> Result<Vec<usize>, NoMemory> {
    let ops = known.rows.flow.ops;
    let mut arrivals = Vec::with_capacity(alloc, ops.len())?;
    for (k, op) in ops.iter().enumerate() {
        if let Some(register) = defines(op)
            && let Some(due) = known.sides.due(k)
        {
            arrivals.push((register.0, due, k))?;
        }
    }
    arrivals.sort_unstable();
    let mut found = vec![in alloc; usize::MAX; ops.len()]?;
    let mut last: Option<(u32, usize)> = None;
    for (register, due, k) in &arrivals {
        if let Some((other, before)) = last
            && other == *register
        {
            put(&mut found, before, *due);
        }
        last = Some((*register, *k));
    }
    Ok(found)
}

impl Lives {
    fn none(alloc: Global, known: &Known) -> Result<Lives, NoMemory> {
        Ok(Lives {
            read: vec![in alloc; 0; known.partners.len()]?,
            replaced: replaced(alloc, known)?,
            at_start: BTreeMap::new(alloc),
        })
    }

    /// The lives of the results that the rows of `known` read rightly.
    fn of(alloc: Global, known: &Known) -> Result<Lives, NoMemory> {
        let mut lives = Lives::none(alloc, known)?;
        for k in &known.rows.flow.issued {
            for place in 0..2 {
                if known.reads_rightly(*k, place) {
                    lives.note(known, *k, place)?;
                }
            }
        }
        Ok(lives)
    }

    /// Notes that operation `k` reads at `place` what it is meant to; operations that were noted before are issued no
    /// later.
    fn note(&mut self, known: &Known, k: usize, place: usize) -> Result<(), NoMemory> {
        if let Some(register) = register_at(known, k, place)
            && let Some(cycle) = known.issued(k)
        {
            let behind = cycle.saturating_add(1);
            match source_at(known.rows.flow.sources(k), place) {
                Some(j) => put(&mut self.read, j, behind),
                None => {
                    self.at_start.insert(register.0, behind)?;
                }
            }
        }
        Ok(())
    }

    /// Whether what operation k reads at a place is read rightly from a cycle on.
    fn is_read(&self, known: &Known, k: usize, place: usize, cycle: usize) -> bool {
        let behind = match source_at(known.rows.flow.sources(k), place) {
            Some(j) => self.read.get(j).copied(),
            None => match register_at(known, k, place) {
                Some(register) => self.at_start.get(&register.0).copied(),
                None => None,
            },
        };
        behind.unwrap_or(0) > cycle
    }

    /// Whether the result of operation u is replaced when operation k is issued.
    fn is_over(&self, known: &Known, u: usize, k: usize) -> bool {
        let until = self.replaced.get(u).copied().unwrap_or(usize::MAX);
        known.issued(k).is_some_and(|cycle| until <= cycle)
    }
}

/// Whether what operation k reads at a place arrives behind a cycle.
fn is_later(known: &Known, k: usize, place: usize, due: usize) -> bool {
    if let Some(j) = source_at(known.rows.flow.sources(k), place)
        && let Some(arrival) = known.sides.due(j)
    {
        return due < arrival;
    }
    false
}

/// Whether operation u brings its result in a lower register than the one that operation k reads at a place: where both are free,
/// the lower one is taken first.
fn is_lower(known: &Known, k: usize, place: usize, u: usize) -> bool {
    let Some(op) = known.rows.flow.ops.get(u) else {
        return false;
    };
    match (defines(op), register_at(known, k, place)) {
        (Some(here), Some(there)) => here.0 < there.0,
        _ => false,
    }
}

/// What is claimed of operations in doubt.
#[derive(Drop)]
pub(crate) struct Resolved {
    pub claims: Vec<Claim>,
    /// What is claimed of operations that are less likely to be at fault.
    pub unlikely: Vec<Claim>,
    // The operations in a register of others that several were to read.
    several: BTreeMap<usize, usize>,
}

impl Resolved {
    /// Notes which is at fault: an operation that reads something else at a place than operation u brings, or u, whose register
    /// is that of others, where nobody reads it. If where it is wanted its result would be in the way of others or be replaced,
    /// the reader is, and rather the reader if u has the lower register and no other operation was to read it; else u, and
    /// perhaps the reader, unless the result is replaced where it is.
    fn astray(
        &mut self,
        known: &Known,
        lives: &Lives,
        doubt: &Doubt,
        u: usize,
    ) -> Result<(), NoMemory> {
        let (reader, place) = (doubt.claim, doubt.place);
        let due = known.sides.due(u).unwrap_or(0);
        let what = What::NeverRead;
        let unread = Claim { k: u, what };
        if lives.is_read(known, reader.k, place, due) || is_later(known, reader.k, place, due) {
            return Ok(self.claims.push(reader)?);
        }
        if self.several.get(&u).is_none() && is_lower(known, reader.k, place, u) {
            self.claims.push(reader)?;
            return Ok(self.unlikely.push(unread)?);
        }
        self.claims.push(unread)?;
        if !lives.is_over(known, u, reader.k) {
            self.claims.push(reader)?;
        }
        Ok(())
    }

    /// Notes what is claimed of an operation in doubt.
    fn resolve(
        &mut self,
        known: &Known,
        lives: &Lives,
        misread: &Misread,
        doubt: &Doubt,
    ) -> Result<(), NoMemory> {
        match doubt.cause {
            Cause::Elsewhere(u) if !misread.brings(known, u) => Ok(self.claims.push(doubt.claim)?),
            Cause::Astray(u) if !misread.brings(known, u) => self.astray(known, lives, doubt, u),
            _ => Ok(()),
        }
    }
}

/// The operations in a register of others, where nobody reads them, that several operations were to read.
fn wanted_by_several(alloc: Global, doubts: &[Doubt]) -> Result<BTreeMap<usize, usize>, NoMemory> {
    let mut first: BTreeMap<usize, usize> = BTreeMap::new(alloc);
    let mut several = BTreeMap::new(alloc);
    for doubt in doubts {
        if let Cause::Astray(u) = doubt.cause {
            match first.get(&u).copied() {
                None => {
                    first.insert(u, doubt.claim.k)?;
                }
                Some(k) if k != doubt.claim.k => {
                    several.insert(u, k)?;
                }
                _ => {}
            }
        }
    }
    Ok(several)
}

/// What is claimed once it is known what all operations read, beside `claims`, some of which follow from others.
pub(crate) fn undoubted(
    alloc: Global,
    known: &Known,
    doubts: &[Doubt],
    claims: &[Claim],
) -> Result<Resolved, NoMemory> {
    let misread = Misread::of(alloc, known, claims)?;
    let lives = Lives::of(alloc, known)?;
    let mut found = Resolved {
        claims: misread.unexplained(alloc, known, claims)?,
        unlikely: Vec::new(alloc),
        several: wanted_by_several(alloc, doubts)?,
    };
    for doubt in doubts {
        found.resolve(known, &lives, &misread, doubt)?;
    }
    Ok(found)
}
