//! The operations of a block that have no counterpart in rows, as long as nobody is found to be one.

use super::data_flow::put;
use super::lines::Lines;
use super::side::{Side, has};
use crate::terms::{Values, at, mix, one_if};
use iloc_facts::Sources;
use iloc_ops::NoMemory;
use std::alloc::Global;

/// What differs in two things that it reads is so far.
const FAR: u32 = 12;

/// What an operation of the rows is meant to be, besides its label.
#[derive(Clone, Copy)]
pub(crate) struct Wanted {
    pub place: u64,
    pub values: Values,
    /// Whether one register is read twice, which counts once.
    pub is_twice: bool,
    pub readers: u64,
}

/// The operations of a block that have no counterpart, by what they have in common with others.
#[derive(Drop)]
pub(crate) struct Missing {
    /// Whether it is one and nobody was found to be it.
    pub free: Vec<bool>,
    /// Whether the rows have too few of its label.
    pub short: Vec<bool>,
    by_term: Lines,
    by_term_and_readers: Lines,
    // By label and terms of what is read, whatever their places are.
    by_reads: Lines,
    by_label: Lines,
}

/// Of `count` operations of a block, which are among `counterparts`.
fn taken(
    alloc: Global,
    count: usize,
    counterparts: &[Option<usize>],
) -> Result<Vec<bool>, NoMemory> {
    let mut taken = vec![in alloc; false; count]?;
    for counterpart in counterparts {
        if let Some(i) = *counterpart {
            put(&mut taken, i, true);
        }
    }
    Ok(taken)
}

impl Missing {
    /// Nothing is missing, of `count` operations.
    fn none(alloc: Global, count: usize, short: Vec<bool>) -> Result<Missing, NoMemory> {
        Ok(Missing {
            free: vec![in alloc; false; count]?,
            short,
            by_term: Lines::new(alloc, count)?,
            by_term_and_readers: Lines::new(alloc, count)?,
            by_reads: Lines::new(alloc, count)?,
            by_label: Lines::new(alloc, count)?,
        })
    }

    /// The operations of `block` that aren't among `counterparts`, the ones that the rows' operations have.
    pub(crate) fn of(
        alloc: Global,
        block: &Side,
        short: Vec<bool>,
        counterparts: &[Option<usize>],
    ) -> Result<Missing, NoMemory> {
        let count = block.terms.len();
        let taken = taken(alloc, count, counterparts)?;
        let mut missing = Missing::none(alloc, count, short)?;
        for i in (0..count).rev() {
            if !has(&taken, i) {
                missing.put_first(block, i)?;
            }
        }
        Ok(missing)
    }

    /// Puts an operation before the others.
    fn put_first(&mut self, block: &Side, i: usize) -> Result<(), NoMemory> {
        let values = Values::of(&block.terms, block.flow.sources(i));
        put(&mut self.free, i, true);
        self.by_term.put_first(at(&block.terms, i), i)?;
        self.by_term_and_readers.put_first(at(&block.both, i), i)?;
        self.by_reads.put_first(block.term(i, 0, values), i)?;
        self.by_label.put_first(at(&block.flow.labels, i), i)
    }

    /// The first missing operation with this `term`; before others, one with these `readers`.
    pub(crate) fn of_term(&mut self, term: u64, readers: u64) -> Result<Option<usize>, NoMemory> {
        let key = mix(term, readers);
        match self.by_term_and_readers.first_free(key, &self.free)? {
            Some(i) => Ok(Some(i)),
            None => self.by_term.first_free(term, &self.free),
        }
    }

    /// The first missing operation whose label and terms that it reads make the number `reads`, at any place.
    pub(crate) fn of_reads(&mut self, reads: u64) -> Result<Option<usize>, NoMemory> {
        self.by_reads.first_free(reads, &self.free)
    }

    /// Somebody is found to be operation i.
    pub(crate) fn take(&mut self, i: usize) {
        put(&mut self.free, i, false);
    }

    /// The first of which the rows have too few.
    pub(crate) fn first_short(&self) -> Option<usize> {
        for (i, free) in self.free.iter().enumerate() {
            if *free && has(&self.short, i) {
                return Some(i);
            }
        }
        None
    }

    /// Whether what an operation reads is missing itself, and of its label the rows have too few.
    fn is_gone(&self, source: Option<usize>) -> bool {
        source.is_some_and(|s| has(&self.free, s) && has(&self.short, s))
    }

    /// Whether an operation with `sources` and `theirs` as their values reads otherwise than `these`, and all that it
    /// reads otherwise is gone.
    fn are_gone(&self, sources: Sources, theirs: Values, these: Values) -> bool {
        match (sources, theirs, these) {
            (Sources::One(only), Values::One(one), Values::One(other)) => {
                one != other && self.is_gone(only)
            }
            (Sources::Two(left, right), Values::Two(a, b), Values::Two(c, d)) => {
                (a != c || b != d)
                    && (a == c || self.is_gone(left))
                    && (b == d || self.is_gone(right))
            }
            _ => false,
        }
    }

    /// How far operation i of the block is from an operation of its label: by what it reads, where a register that is read twice
    /// counts once, by place, and by its readers.
    fn distance(&self, block: &Side, i: usize, wanted: &Wanted) -> u32 {
        let sources = block.flow.sources(i);
        let theirs = Values::of(&block.terms, sources);
        let places = theirs.differing(wanted.values);
        let is_once = wanted.is_twice && theirs.is_one();
        let differing = if is_once { places.min(1) } else { places }.saturating_mul(2);
        let gone = one_if(self.are_gone(sources, theirs, wanted.values));
        let place = one_if(at(&block.places, i) != wanted.place);
        let readers = one_if(at(&block.readers, i) != wanted.readers);
        differing
            .saturating_sub(gone)
            .saturating_mul(4)
            .saturating_add(place.saturating_mul(2))
            .saturating_add(readers)
    }

    /// The missing operations of `label`, of which at most `LOOKS` are visited.
    pub(crate) fn of_label(&mut self, alloc: Global, label: u64) -> Result<Vec<usize>, NoMemory> {
        self.by_label.first_free(label, &self.free)?;
        let mut found = Vec::new(alloc);
        for i in &self.by_label.first_few(alloc, label)? {
            if has(&self.free, *i) {
                found.push(*i)?;
            }
        }
        Ok(found)
    }

    /// The nearest of `these` to what is `wanted`, if it differs in at most one thing that it reads, or is the only
    /// one.
    pub(crate) fn nearest(&self, block: &Side, these: &[usize], wanted: &Wanted) -> Option<usize> {
        let mut found: Option<(u32, usize)> = None;
        for i in these {
            let far = self.distance(block, *i, wanted);
            found = match found {
                Some((other, _)) if other <= far => found,
                _ => Some((far, *i)),
            };
        }
        match found {
            Some((far, i)) if far < FAR || these.len() == 1 => Some(i),
            _ => None,
        }
    }
}
